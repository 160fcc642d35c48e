//! What a plan moves between wallets and vaults.

ghost use Rattle.std.specs.Prelude.{◌≡◌};
ghost use Rattle.dex_types.specs.Side.{locked_token};
ghost use Rattle.dex_types.specs.Transfers.{exchange};
ghost use Rattle.dex_movements.specs.Amounts.{transfers_of};
ghost use Rattle.dex_plan.specs.Owing.{plan_transfers};

use dex_movements::Amounts;
use dex_plan::Plan;
use dex_types::Side;

/// A payment of one token and a payout of the other, by the side of the order.
fn exchanged(side: Side, paid: u64, got: u64) -> Amounts
    ensures { transfers_of result ≡ exchange (locked_token side) paid got }
{
    match side {
        Side::Bid => Amounts {
            pc_in: paid,
            coin_out: got,
            ..Amounts::none()
        },
        Side::Ask => Amounts {
            coin_in: paid,
            pc_out: got,
            ..Amounts::none()
        },
    }
}

/// What a plan moves, in native amounts.
pub fn amounts_of(plan: &Plan) -> Amounts
    ensures { transfers_of result ≡ plan_transfers plan.now }
{
    match *plan {
        Plan::Order { taker, plan, .. } => exchanged(taker.id_side, plan.deposit, 0),
        Plan::Take { taker, plan, .. } => exchanged(taker.id_side, plan.deposit, plan.payout),
        Plan::Settle(plan) => Amounts {
            coin_out: plan.coin,
            pc_out: plan.pc,
            referrer_out: plan.referrer,
            ..Amounts::none()
        },
        Plan::Sweep(fees) => Amounts {
            pc_out: fees,
            ..Amounts::none()
        },
        _ => Amounts::none(),
    }
}
