//! Laws of single steps: what each row does to worth.

ghost use Rattle.std.specs.Prelude.{◌≡◌, Some, None, true};
ghost use Rattle.dex_types.specs.declared.refusals.Refusal.{Refusal};
ghost use Rattle.dex_types.specs.declared.rows.Seen.{Seen};
ghost use Rattle.dex_types.specs.Market.{Market};
ghost use Rattle.dex_types.specs.Requests.{Request};
ghost use Rattle.dex_types.specs.Soundness.{IsSound};
ghost use Rattle.dex_types.specs.Steps.{step};
ghost use Rattle.dex_types.specs.Why.{why};
ghost use Rattle.dex_eager.specs.Eager.{eager_at, eager_step, unchanged};
ghost use Rattle.dex_eager.specs.Histories.{IsPaidAs, is_crank};
ghost use Rattle.dex_eager.specs.Worth.{Ledger};

/// A row that is not refused changes the sides, but for slots, the next sequence number, each account's worth and what
/// the market has taken as it changes those of a market that pays at once, and appends the fills that it makes there.
pub fn a_step_moves_worth_as_its_fills_do()
    ensures { (request : Request) (seen : Seen) (m : Market) (ledger : Ledger) → IsSound m
        → why request seen m ≡ None
        → IsPaidAs m ledger request.named (step request seen m) (eager_step request seen (eager_at m ledger)) }
{}

/// A crank changes no side, nobody's worth and nothing that the market has taken, and appends no fill: what it pays an
/// account was owed to it.
pub fn a_crank_moves_no_worth()
    ensures { (request : Request) (seen : Seen) (m : Market) (ledger : Ledger) → IsSound m
        → is_crank request.instruction ≡ true →
        IsPaidAs m ledger request.named (step request seen m) (unchanged (eager_at m ledger)) }
{}

/// Nor does a row that is refused.
pub fn a_refused_row_moves_no_worth()
    ensures { (request : Request) (seen : Seen) (m : Market) (ledger : Ledger) (refusal : Refusal)
        → why request seen m ≡ Some refusal →
        IsPaidAs m ledger request.named (step request seen m) (unchanged (eager_at m ledger)) }
{}
