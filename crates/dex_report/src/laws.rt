//! What holds of all reports.

ghost use Rattle.std.specs.Prelude.{◌≡◌, ℕ, ◌<◌, ◌^◌, List, map, true};
ghost use Rattle.std.specs.List.{All};
ghost use Rattle.dex_types.specs.declared.movements.Entry.{Entry};
ghost use Rattle.dex_types.specs.Market.{Market};
ghost use Rattle.dex_history.specs.Journal.{Call, IsLegal};
ghost use Rattle.dex_state.specs.Outcomes.{PlainOutcome};
ghost use Rattle.dex_report.specs.Report as texts;
ghost use Rattle.dex_report.specs.Telling.{AreInFront, FitOutcome, IsToldOutcome, stand_from_front};

/// A report is read in one way: two outcomes that have one text are equal, and so are the numbers of rows that it
/// tells. Their values fit their types, and the movements of each entry stand from the front.
pub fn one_reading()
    ensures { (a b : PlainOutcome) (n m : ℕ) → IsToldOutcome a → IsToldOutcome b → n < 2 ^ 32 → m < 2 ^ 32
        → texts.report_text a n ≡ texts.report_text b m → (a ≡ b) × (n ≡ m) }
{}

/// The movements of each entry of a legal history stand from the front.
pub fn movements_stand_from_the_front()
    ensures { (calls : List Call) (m : Market) → IsLegal m calls
        → All (λ (entry : Entry). stand_from_front entry.moves ≡ true) (map (λ (call : Call). call.entry) calls) }
{}

/// An outcome whose values fit, as those of each outcome whose report was written do, and whose movements stand from
/// the front is told in one way.
pub fn what_fits_is_told()
    ensures { (outcome : PlainOutcome) → FitOutcome outcome → All AreInFront outcome.markets
        → IsToldOutcome outcome }
{}
