//! What a plan tells is what the step of its row does on the market. A law is a function without a body, and its
//! clauses are the law.

ghost use Rattle.std.specs.Prelude.{◌≡◌, Ok, Err, Some};
ghost use Rattle.dex_types.specs.declared.refusals.Refusal.{Refusal};
ghost use Rattle.dex_types.specs.declared.rows.Seen.{Seen};
ghost use Rattle.dex_types.specs.Market.{Market};
ghost use Rattle.dex_types.specs.Requests.{Request};
ghost use Rattle.dex_types.specs.Steps.{refused, step};
ghost use Rattle.dex_ring.specs.declared.pending_fills.PendingFills.{PendingFills};
ghost use Rattle.dex_ring.specs.PendingFills.{pending_fills_of};
ghost use Rattle.dex_plan.specs.declared.plan.Plan.{Plan};
ghost use Rattle.dex_plan.specs.Owing.{plan_transfers, sums_told};
ghost use Rattle.dex_plan.specs.Plans.{decided};

/// A row that is refused leaves its market, and is answered by the refusal. One that is not moves exactly what
/// its plan says between wallets and vaults; and where its plan tells what pending makers' fills are to take off totals
/// after it, that is so of the market that it leaves.
pub fn what_is_decided_is_of_the_step()
    ensures refused { (request : Request) (seen : Seen) (m : Market) (why : Refusal) →
        decided request seen m ≡ Err why → step request seen m ≡ refused why m }
    ensures moves { (request : Request) (seen : Seen) (m : Market) (plan : Plan) →
        decided request seen m ≡ Ok plan → plan_transfers plan ≡ (step request seen m).transfers }
    ensures sums { (request : Request) (seen : Seen) (m : Market) (plan : Plan) (sums : PendingFills) →
        decided request seen m ≡ Ok plan → sums_told plan ≡ Some sums →
        sums ≡ pending_fills_of (step request seen m).market.events }
{}
