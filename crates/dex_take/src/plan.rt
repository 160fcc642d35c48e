//! What was decided of a take.

ghost use Rattle.std.specs.Prelude.{◌≡◌, ◌+◌, ◌-◌, ◌*◌, ◌<◌, ◌≤◌, ◌^◌, if◌then◌else◌};
ghost use Rattle.dex_take.specs.Exchanging.{moves};
ghost use Rattle.dex_take.specs.Taking.{transfers_by};
ghost use Rattle.dex_types.specs.Side.{by_side};

use dex_fills::Sums;
use dex_ring::PendingFills;
use dex_types::{Lots, Side};

/// What an accepted take does: the native amount from the paying wallet into its vault and the one from the other vault
/// to the other wallet, the base lots and the native quote that fill, and its fee in native quote. A bid pays quote and
/// the fee and gets base; an ask pays base and gets quote less the fee.
#[derive(Clone, Copy, Debug, PartialEq, Eq)]
pub struct TakePlan {
    pub deposit: u64,
    pub payout: u64,
    pub lots: u64,
    pub pc: u64,
    pub fee: u64,
}

/// A plan, and what makers' fills are still to take off totals once those of the plan's take are pending too.
#[derive(Clone, Copy, Debug, PartialEq, Eq)]
pub struct DecidedTake {
    pub plan: TakePlan,
    pub pending: PendingFills,
}

/// What a take moves between wallets and vaults, in native amounts, into the vaults and out of them.
#[derive(Clone, Copy)]
pub(crate) struct Exchange {
    pub(crate) coin_in: u64,
    pub(crate) coin_out: u64,
    pub(crate) pc_in: u64,
    pub(crate) pc_out: u64,
}

/// The plan of a take of the side whose fills have these sums and cost this fee.
pub(crate) fn plan_of(side: Side, sizes: Lots, sums: Sums, fee: u64) -> TakePlan
    requires base { sums.lots * sizes.coin < 2 ^ 64 }
    requires quote { side ≡ Side.Bid → sums.pc + fee < 2 ^ 64 }
    requires part { fee ≤ sums.pc }
    ensures { result ≡ record {
      deposit = by_side side (sums.pc + fee) (sums.lots * sizes.coin);
      payout = by_side side (sums.lots * sizes.coin) (sums.pc - fee);
      lots = sums.lots;
      pc = sums.pc;
      fee = fee;
    } }
{
    let base = sums.lots * sizes.coin;
    let (deposit, payout) = match side {
        Side::Bid => (sums.pc + fee, base),
        Side::Ask => (base, sums.pc - fee),
    };
    TakePlan {
        deposit,
        payout,
        lots: sums.lots,
        pc: sums.pc,
        fee,
    }
}

/// What a plan moves: a bid brings quote in and takes base out, an ask the other way round.
pub(crate) fn exchange_of(side: Side, plan: &TakePlan) -> Exchange
    ensures { moves result ≡ transfers_by side plan.now }
{
    match side {
        Side::Bid => Exchange {
            coin_in: 0,
            coin_out: plan.payout,
            pc_in: plan.deposit,
            pc_out: 0,
        },
        Side::Ask => Exchange {
            coin_in: plan.deposit,
            coin_out: 0,
            pc_in: 0,
            pc_out: plan.payout,
        },
    }
}
