//! What holds of the answers of all commands. A law is a function without a body, and its clause is the law.

ghost use Rattle.std.specs.Prelude.{◌≡◌, ℕ, Bool, List};
ghost use Rattle.dex_words.specs.declared.command.Command.{Command};
ghost use Rattle.dex_types.specs.declared.limits.TheConstants.{STANDARD};
ghost use Rattle.dex_answers.specs.Answers.{Reported};
ghost use Rattle.dex_answers.specs.Suits.{Suits};
ghost use Rattle.dex_answers.specs.declared.status.Status.{Status};
ghost use Rattle.dex_answers.specs.declared.status.Status.TheVariants.{Ok as Done};
ghost use Rattle.dex_commands.specs.LaneAnswers.{AnswersAll, Ran};

/// To bytes that suit it, a command has no answer but that of status Ok: no script, no dump without findings, and none
/// of which all fits, is refused.
pub fn what_suits_a_command_is_answered()
    ensures { (command : Command) (bytes : List ℕ) (stood : Status) (text : List ℕ)
        → Suits command bytes → AnswersAll STANDARD command bytes stood text → stood ≡ Done }
{}

/// One text is the report of one outcome: two outcomes of which `run`, `replay` or `batch` wrote one text are equal,
/// whatever scripts they are of.
pub fn one_report_is_of_one_outcome()
    ensures run { (bytes others text : List ℕ)
        (one : Ran bytes text) (other : Ran others text) → one.1 ≡ other.1 }
    ensures replay { (batch twin : Bool) (bytes others text : List ℕ) (one : Reported STANDARD batch bytes text)
        (other : Reported STANDARD twin others text) → one.1 ≡ other.1 }
    ensures both { (batch : Bool) (bytes others text : List ℕ)
        (one : Ran bytes text) (other : Reported STANDARD batch others text) → one.1 ≡ other.1 }
{}
