//! Why a take is refused by what it would do.

ghost use Rattle.std.specs.Prelude.{◌≡◌, ◌<◌, ◌≤◌, ◌^◌};
ghost use Rattle.dex_market.specs.MarketAccount.{IsMarket, market_words, vault_of};
ghost use Rattle.dex_take.specs.Taking.{at_bound, before_bound, too_little_by, transfers_by};
ghost use Rattle.dex_types.specs.Reasons as reasons;
ghost use Rattle.dex_types.specs.Side.{Coin, Pc};

use crate::outlook::TakeOutlook;
use crate::plan::{TakePlan, exchange_of};
use dex_market::MarketRef;
use dex_reasons::{Payout, beyond, no_room, payer, short_of, too_full};
use dex_ring::PendingFills;
use dex_types::{Refusal, Seen, Side};

/// What a take has to fill at least, in base lots and in native quote with its fee.
#[derive(Clone, Copy)]
pub struct LeastFill {
    pub lots: u64,
    pub pc: u64,
}

/// The plan fills too few lots, or else too little quote: a bid's with its fee, an ask's less its fee.
fn below_minimum(side: Side, plan: &TakePlan, least: LeastFill) -> Option<Refusal>
    ensures { result ≡ reasons.below_minimum (too_little_by side plan.now least.lots least.pc) }
{
    let quote = match side {
        Side::Bid => plan.deposit,
        Side::Ask => plan.payout,
    };
    if plan.lots < least.lots {
        Some(Refusal::BelowMinimum { got: plan.lots })
    } else if quote < least.pc {
        Some(Refusal::BelowMinimum { got: quote })
    } else {
        None
    }
}

/// The first reason that asks for the least fill, for the queue's free places and for the wallets' balances.
pub(crate) fn fill_reason(
    side: Side,
    outlook: &TakeOutlook,
    least: LeastFill,
    room: u32,
    seen: &Seen,
) -> Option<Refusal>
    ensures { result ≡ reasons.first_of (
        before_bound side outlook.now.plan least.lots least.pc outlook.now.events room seen.now) }
{
    let moved = exchange_of(side, &outlook.plan);
    let paid = Payout {
        coin: moved.coin_out,
        pc: moved.pc_out,
        referrer: 0,
    };
    below_minimum(side, &outlook.plan, least)
        .or(no_room(outlook.events, room))
        .or(short_of(outlook.plan.deposit, payer(side, seen)))
        .or(too_full(seen, paid, seen.coin))
        .or(too_full(seen, paid, seen.pc))
}

/// The first vault, base before quote, that would be 2^64 or more with what pending makers' fills are then still to
/// take off totals, which are these two sums.
pub(crate) fn bound_reason(
    market: &MarketRef<'_>,
    side: Side,
    plan: &TakePlan,
    pending: PendingFills,
) -> Option<Refusal>
    requires market { IsMarket market.now.bytes.now }
    requires coin { (transfers_by side plan.now).coin_out ≤ vault_of Coin (market_words market.now.bytes.now) }
    requires pc { (transfers_by side plan.now).pc_out ≤ vault_of Pc (market_words market.now.bytes.now) }
    requires coin_small { pending.coin < 2 ^ 81 }
    requires pc_small { pending.pc < 2 ^ 81 }
    ensures { result ≡ reasons.first_of (at_bound side plan.now (market_words market.now.bytes.now) pending) }
{
    let moved = exchange_of(side, plan);
    let vaults = market.vaults();
    let coin = vaults.coin + u128::from(moved.coin_in) - u128::from(moved.coin_out);
    let pc = vaults.pc + u128::from(moved.pc_in) - u128::from(moved.pc_out);
    beyond(coin, pending.coin).or(beyond(pc, pending.pc))
}
