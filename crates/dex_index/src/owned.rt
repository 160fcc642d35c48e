//! What is done to one open-orders account, done among accounts that own their bytes. The functions have the
//! parameters of their methods in `StepsOrders`.

ghost use Rattle.std.specs.Prelude.{◌≡◌, map};
ghost use Rattle.dex_types.specs.Accounts.{orders_account_of};
ghost use Rattle.dex_types.specs.QueuedEvent.{decoded_event};
ghost use Rattle.dex_accounts.specs.Owners.{changed_at};
ghost use Rattle.dex_cancel.specs.Cancelling.{named_by};
ghost use Rattle.dex_crank.specs.PaidBytes.{HasOwner, paid_in};
ghost use Rattle.dex_orders.specs.OrdersAccount.{IsBlank};
ghost use Rattle.dex_step.specs.CancelActs.{CanCancel, HasCancelled, cancel_bytes};
ghost use Rattle.dex_step.specs.FundBytes.{
  CanChange,
  CanClose,
  CanSettle,
  HasChanged,
  HasClosed,
  HasOpened,
  HasSettled,
};
ghost use Rattle.dex_step.specs.OrderActs.{CanOrderAmong, HasOrderedAmong, among};

use dex_cancel::CancelWhat;
use dex_crank::PaysOrders;
use dex_lent::OwnedOrders;
use dex_match::{OrderPlan, Taker};
use dex_settle::SettlePlan;
use dex_step::StepsOrders;
use dex_types::{Address, Event, Lots, OrdersAccount, Reply};

/// Pays the event to its owner's account.
pub(crate) fn pay_among(accounts: &mut [OrdersAccount], event: &Event)
    requires { HasOwner (decoded_event event.now) (map orders_account_of accounts.old) }
    ensures { map orders_account_of accounts.new ≡ changed_at event.now.owner (paid_in (decoded_event event.now))
        (map orders_account_of accounts.old) }
{
    OwnedOrders { accounts }.pay_owner(event);
}

/// A new order of the taker's account. Each buffer is a parameter, as in the trait (`StepsOrders`).
pub(crate) fn order_among(
    accounts: &mut [OrdersAccount],
    plan: &OrderPlan,
    taker: Taker,
    market: &mut [u8],
    requests: &mut [u8],
    events: &mut [u8],
    own: &mut [u8],
    opposite: &mut [u8],
) -> Reply
    requires { CanOrderAmong plan.now taker (among market.old requests.old events.old own.old opposite.old
        (map orders_account_of accounts.old)) }
    ensures { HasOrderedAmong taker result
        (among market.old requests.old events.old own.old opposite.old (map orders_account_of accounts.old))
        (among market.new requests.new events.new own.new opposite.new (map orders_account_of accounts.new)) }
{
    OwnedOrders { accounts }.order(plan, taker, market, requests, events, own, opposite)
}

/// Settling the owner's account.
pub(crate) fn settle_among(
    accounts: &mut [OrdersAccount],
    plan: &SettlePlan,
    owner: Address,
    market: &mut [u8],
)
    requires { CanChange owner (CanSettle plan.now market.old) (map orders_account_of accounts.old) }
    ensures { HasChanged owner (HasSettled plan.entry.now market.old market.new)
        (map orders_account_of accounts.old) (map orders_account_of accounts.new) }
{
    OwnedOrders { accounts }.settle(plan, owner, market);
}

/// A cancel of the owner's orders. Each buffer is a parameter, as in the trait.
pub(crate) fn cancel_among(
    accounts: &mut [OrdersAccount],
    what: &CancelWhat,
    owner: Address,
    sizes: Lots,
    bids: &mut [u8],
    asks: &mut [u8],
    events: &mut [u8],
) -> u32
    requires { CanChange owner (λ account. CanCancel (named_by what.now) owner account
        (cancel_bytes sizes bids.old asks.old events.old)) (map orders_account_of accounts.old) }
    ensures does { HasCancelled (named_by what.entry.now) owner result
        (cancel_bytes sizes bids.old asks.old events.old) (cancel_bytes sizes bids.new asks.new events.new) }
    ensures held { map orders_account_of accounts.new ≡ map orders_account_of accounts.old }
{
    OwnedOrders { accounts }.cancel(what, owner, sizes, bids, asks, events)
}

/// Opening the owner's account.
pub(crate) fn init_among(
    accounts: &mut [OrdersAccount],
    owner: Address,
    market: Address,
    person: Address,
)
    requires { CanChange owner IsBlank (map orders_account_of accounts.old) }
    ensures { HasChanged owner (HasOpened market person)
        (map orders_account_of accounts.old) (map orders_account_of accounts.new) }
{
    OwnedOrders { accounts }.init(owner, market, person);
}

/// Closing the owner's account.
pub(crate) fn close_among(accounts: &mut [OrdersAccount], owner: Address)
    requires { CanChange owner CanClose (map orders_account_of accounts.old) }
    ensures { HasChanged owner HasClosed
        (map orders_account_of accounts.old) (map orders_account_of accounts.new) }
{
    OwnedOrders { accounts }.close(owner);
}
