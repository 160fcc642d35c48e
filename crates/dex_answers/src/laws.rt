//! What holds of the answers of all commands on one thread, of swaps, and of what reports tell. A law is a function
//! without a body, and its clause is the law.

ghost use Rattle.std.specs.Prelude.{◌≡◌, ℕ, List};
ghost use Rattle.std.specs.List.{All};
ghost use Rattle.dex_words.specs.declared.command.Command.{Command};
ghost use Rattle.dex_state.specs.Outcomes.{PlainOutcome};
ghost use Rattle.dex_report.specs.Telling.{AreInFront, FitOutcome, IsToldOutcome};
ghost use Rattle.dex_script_types.specs.PlainScript.{PlainScript};
ghost use Rattle.dex_script_types.specs.Facts.{IsScript};
ghost use Rattle.dex_replay.specs.Lawful.{IsLawful};
ghost use Rattle.dex_replay.specs.Runs.{IsRunOf};
ghost use Rattle.dex_answers.specs.Answers.{Answers};
ghost use Rattle.dex_answers.specs.Paired.{ArePaired};
ghost use Rattle.dex_answers.specs.Suits.{Suits};
ghost use Rattle.dex_answers.specs.declared.status.Status.{Status};
ghost use Rattle.dex_answers.specs.declared.status.Status.TheVariants.{Ok as Done};

/// To bytes that suit it, a command on one thread has no answer but that of status Ok: no script, no dump without
/// findings, and none of which all fits, is refused.
pub fn what_suits_a_command_is_answered()
    ensures { (command : Command) (bytes : List ℕ) (stood : Status) (text : List ℕ)
        → Suits command bytes → Answers command bytes stood text → stood ≡ Done }
{}

/// In each lawful outcome of a script both legs of a swap took, or neither: then one is refused, and each that is not
/// was held back.
pub fn both_legs_of_a_swap_take_or_neither()
    ensures { (script : PlainScript) (outcome : PlainOutcome) → IsScript script → IsLawful script outcome
        → ArePaired script outcome }
{}

/// What a run leaves is told in one way where its values fit, as they do wherever its report was written: the movements
/// of each entry of a lawful outcome stand from the front.
pub fn what_a_run_leaves_is_told()
    ensures front { (script : PlainScript) (outcome : PlainOutcome) → IsLawful script outcome
        → All AreInFront outcome.markets }
    ensures told { (script : PlainScript) (outcome : PlainOutcome) → IsRunOf script outcome → FitOutcome outcome
        → IsToldOutcome outcome }
{}
