//! New orders, done in place. None takes memory.

ghost use Rattle.std.specs.Prelude.{map};
ghost use Rattle.dex_accounts.specs.Decoded.{AreSound, market_in};
ghost use Rattle.dex_step.specs.Acting.{CanTakeIn, HasStepped, HaveTakenIn};
ghost use Rattle.dex_step.specs.OrderActs.{
  CanOrder,
  CanOrderAmong,
  HasOrdered,
  HasOrderedAmong,
  among,
  among_of,
  order_bytes,
};
ghost use Rattle.dex_step.specs.OrderRows.{IsOrderDecided, order_step};
ghost use Rattle.dex_lent.specs.Flat.{accounts_in};
ghost use Rattle.dex_lent.specs.Lent.{KeepsPlaces, lent_of};
ghost use Rattle.dex_types.specs.Accounts.{orders_account_of};

use crate::steps_orders::StepsOrders;
use crate::vaults::bring;
use dex_accounts::place_of;
use dex_lent::{DATA, LentMarket, data_at};
use dex_market::{MarketView, RequestView};
use dex_match::{OrderPlan, Taker, apply_order};
use dex_orders::OrdersView;
use dex_ring::{PendingFills, RingView};
use dex_slab::SlabView;
use dex_types::{OrdersAccount, Reply, Side};

/// A new order, on the bytes of its accounts: as many as `apply_order` takes, since the checker follows no record of
/// lent views.
fn order_on_bytes(
    plan: &OrderPlan,
    taker: Taker,
    market: &mut [u8],
    requests: &mut [u8],
    events: &mut [u8],
    account: &mut [u8],
    own: &mut [u8],
    opposite: &mut [u8],
) -> Reply
    requires { CanOrder plan.now taker
        (order_bytes market.old requests.old events.old account.old own.old opposite.old) }
    ensures { HasOrdered taker result (order_bytes market.old requests.old events.old account.old own.old opposite.old)
        (order_bytes market.new requests.new events.new account.new own.new opposite.new) }
{
    let side = taker.id_side;
    apply_order(
        plan,
        &taker,
        &mut MarketView { bytes: market },
        &mut RequestView { bytes: requests },
        &mut SlabView { bytes: own, side },
        &mut SlabView {
            bytes: opposite,
            side: side.opposite(),
        },
        &mut RingView { bytes: events },
        &mut OrdersView { bytes: account },
    )
}

/// A new order of an account among those that own their bytes.
pub(crate) fn order_owned(
    plan: &OrderPlan,
    taker: Taker,
    market: &mut [u8],
    requests: &mut [u8],
    events: &mut [u8],
    accounts: &mut [OrdersAccount],
    own: &mut [u8],
    opposite: &mut [u8],
) -> Reply
    requires { CanOrderAmong plan.now taker (among market.old requests.old events.old own.old opposite.old
        (map orders_account_of accounts.old)) }
    ensures { HasOrderedAmong taker result
        (among market.old requests.old events.old own.old opposite.old (map orders_account_of accounts.old))
        (among market.new requests.new events.new own.new opposite.new (map orders_account_of accounts.new)) }
{
    let place = place_of(accounts, taker.account);
    let account = &mut accounts[place].bytes;
    order_on_bytes(
        plan, taker, market, requests, events, account, own, opposite,
    )
}

/// A new order of an account among records.
pub(crate) fn order_flat(
    plan: &OrderPlan,
    taker: Taker,
    market: &mut [u8],
    requests: &mut [u8],
    events: &mut [u8],
    accounts: &mut [u8],
    own: &mut [u8],
    opposite: &mut [u8],
) -> Reply
    requires { CanOrderAmong plan.now taker (among market.old requests.old events.old own.old opposite.old
        (accounts_in accounts.old)) }
    ensures { HasOrderedAmong taker result
        (among market.old requests.old events.old own.old opposite.old (accounts_in accounts.old))
        (among market.new requests.new events.new own.new opposite.new (accounts_in accounts.new)) }
{
    let at = data_at(accounts, taker.account);
    order_on_bytes(
        plan,
        taker,
        market,
        requests,
        events,
        &mut accounts[at..at + DATA],
        own,
        opposite,
    )
}

/// A new order of either side, with its deposit in the vault.
fn order_by_side<O: StepsOrders>(
    accounts: &mut LentMarket<'_, O>,
    plan: &OrderPlan,
    taker: Taker,
) -> Reply
    requires can { CanOrderAmong plan.now taker (among_of taker.id_side (lent_of O.held accounts.old)) }
    requires vault { CanTakeIn taker.id_side plan.now.deposit (lent_of O.held accounts.old) }
    ensures does { HasOrderedAmong taker result (among_of taker.id_side (lent_of O.held accounts.old))
        (among_of taker.id_side (lent_of O.held accounts.new)) }
    ensures vaults { HaveTakenIn taker.id_side plan.now.deposit (lent_of O.held accounts.old)
        (lent_of O.held accounts.new) }
    ensures places { KeepsPlaces O.place accounts.old accounts.new }
{
    match taker.id_side {
        Side::Bid => {
            bring(accounts.pc_vault, plan.deposit);
            accounts.orders.order(
                plan,
                taker,
                accounts.market,
                accounts.requests,
                accounts.events,
                accounts.bids,
                accounts.asks,
            )
        }
        Side::Ask => {
            bring(accounts.coin_vault, plan.deposit);
            accounts.orders.order(
                plan,
                taker,
                accounts.market,
                accounts.requests,
                accounts.events,
                accounts.asks,
                accounts.bids,
            )
        }
    }
}

/// A new order of an open account, as it was decided: it trades and rests, its deposit enters the vault, and it is
/// answered what it did. `left` is what makers' fills are to take off totals after it.
pub(crate) fn order_row<O: StepsOrders>(
    accounts: &mut LentMarket<'_, O>,
    pending: &mut PendingFills,
    taker: Taker,
    plan: &OrderPlan,
    left: PendingFills,
) -> Reply
    requires sound { AreSound (lent_of O.held accounts.old) }
    requires decided { IsOrderDecided taker plan.now left (market_in (lent_of O.held accounts.old)) }
    ensures stepped { HasStepped (lent_of O.held accounts.old) (lent_of O.held accounts.new) result pending.new
        (order_step taker (market_in (lent_of O.held accounts.old))) }
    ensures places { KeepsPlaces O.place accounts.old accounts.new }
{
    let reply = order_by_side(accounts, plan, taker);
    *pending = left;
    reply
}
