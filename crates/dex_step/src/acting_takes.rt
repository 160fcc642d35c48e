//! Takes, done in place. None takes memory.

ghost use Rattle.dex_accounts.specs.Decoded.{AreSound, market_in};
ghost use Rattle.dex_step.specs.Acting.{CanExchange, HasStepped, HaveExchanged};
ghost use Rattle.dex_step.specs.TakeActs.{CanTake, HasTaken, KeepsRest, take_bytes, take_bytes_of};
ghost use Rattle.dex_step.specs.TakeRows.{IsTakeDecided, take_step};
ghost use Rattle.dex_lent.specs.Lent.{KeepsPlaces, lent_of};

use crate::steps_orders::StepsOrders;
use crate::vaults::{bring, take_out};
use dex_lent::LentMarket;
use dex_market::MarketView;
use dex_match::Taker;
use dex_ring::{PendingFills, RingView};
use dex_slab::SlabView;
use dex_take::{TakePlan, apply_take};
use dex_types::{Reply, Side};

/// A take, on the bytes of its accounts.
fn take_on_bytes(
    plan: &TakePlan,
    taker: Taker,
    market: &mut [u8],
    events: &mut [u8],
    opposite: &mut [u8],
) -> Reply
    requires { CanTake plan.now taker (take_bytes market.old events.old opposite.old) }
    ensures { HasTaken taker result (take_bytes market.old events.old opposite.old)
        (take_bytes market.new events.new opposite.new) }
{
    apply_take(
        plan,
        &taker,
        &mut MarketView { bytes: market },
        &mut SlabView {
            bytes: opposite,
            side: taker.id_side.opposite(),
        },
        &mut RingView { bytes: events },
    )
}

/// A take of either side: what it pays enters one vault, and what it gets leaves the other.
fn take_by_side<O: StepsOrders>(
    accounts: &mut LentMarket<'_, O>,
    plan: &TakePlan,
    taker: Taker,
) -> Reply
    requires can { CanTake plan.now taker (take_bytes_of taker.id_side (lent_of O.held accounts.old)) }
    requires vaults { CanExchange taker.id_side plan.now.deposit plan.now.payout (lent_of O.held accounts.old) }
    ensures does { HasTaken taker result (take_bytes_of taker.id_side (lent_of O.held accounts.old))
        (take_bytes_of taker.id_side (lent_of O.held accounts.new)) }
    ensures vaults { HaveExchanged taker.id_side plan.now.deposit plan.now.payout (lent_of O.held accounts.old)
        (lent_of O.held accounts.new) }
    ensures rest { KeepsRest taker.id_side (lent_of O.held accounts.old) (lent_of O.held accounts.new) }
    ensures places { KeepsPlaces O.place accounts.old accounts.new }
{
    match taker.id_side {
        Side::Bid => {
            let reply = take_on_bytes(plan, taker, accounts.market, accounts.events, accounts.asks);
            bring(accounts.pc_vault, plan.deposit);
            take_out(accounts.coin_vault, plan.payout);
            reply
        }
        Side::Ask => {
            let reply = take_on_bytes(plan, taker, accounts.market, accounts.events, accounts.bids);
            bring(accounts.coin_vault, plan.deposit);
            take_out(accounts.pc_vault, plan.payout);
            reply
        }
    }
}

/// A take, as it was decided: it meets the other side, what it pays enters one vault and what it gets leaves the
/// other, and it is answered what it filled. `left` is what makers' fills are to take off totals after it.
pub(crate) fn take_row<O: StepsOrders>(
    accounts: &mut LentMarket<'_, O>,
    pending: &mut PendingFills,
    taker: Taker,
    plan: &TakePlan,
    left: PendingFills,
) -> Reply
    requires sound { AreSound (lent_of O.held accounts.old) }
    requires decided { IsTakeDecided taker plan.now left (market_in (lent_of O.held accounts.old)) }
    ensures stepped { HasStepped (lent_of O.held accounts.old) (lent_of O.held accounts.new) result pending.new
        (take_step taker (market_in (lent_of O.held accounts.old))) }
    ensures places { KeepsPlaces O.place accounts.old accounts.new }
{
    let reply = take_by_side(accounts, plan, taker);
    *pending = left;
    reply
}
