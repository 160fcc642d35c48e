//! Orders and cancels of the account to which an index leads. The functions have the parameters of their methods in
//! `StepsOrders`, and the accounts and the index apart.

ghost use Rattle.std.specs.Prelude.{◌≡◌, map};
ghost use Rattle.dex_types.specs.Accounts.{orders_account_of};
ghost use Rattle.dex_cancel.specs.Cancelling.{named_by};
ghost use Rattle.dex_step.specs.CancelActs.{CanCancel, HasCancelled, cancel_bytes};
ghost use Rattle.dex_step.specs.FundBytes.{CanChange};
ghost use Rattle.dex_step.specs.OrderActs.{CanOrderAmong, HasOrderedAmong, among};
ghost use Rattle.dex_index.specs.Reached.{reached_by};

use crate::index::AccountIndex;
use crate::owned::{cancel_among, order_among};
use dex_cancel::CancelWhat;
use dex_match::{OrderPlan, Taker};
use dex_types::{Address, Lots, OrdersAccount, Reply};

/// A new order of the taker's account. Each buffer is a parameter, as in the trait (`StepsOrders`).
pub(crate) fn order_indexed(
    index: &AccountIndex,
    accounts: &mut [OrdersAccount],
    plan: &OrderPlan,
    taker: Taker,
    market: &mut [u8],
    requests: &mut [u8],
    events: &mut [u8],
    own: &mut [u8],
    opposite: &mut [u8],
) -> Reply
    requires { CanOrderAmong plan.now taker (among market.old requests.old events.old own.old opposite.old
        (reached_by index.now (map orders_account_of accounts.old))) }
    ensures { HasOrderedAmong taker result
        (among market.old requests.old events.old own.old opposite.old
        (reached_by index.now (map orders_account_of accounts.old)))
        (among market.new requests.new events.new own.new opposite.new
        (reached_by index.now (map orders_account_of accounts.new))) }
{
    let near = index.near(taker.account, accounts.len());
    order_among(
        &mut accounts[near.start..near.end],
        plan,
        taker,
        market,
        requests,
        events,
        own,
        opposite,
    )
}

/// A cancel of the owner's orders. Each buffer is a parameter, as in the trait.
pub(crate) fn cancel_indexed(
    index: &AccountIndex,
    accounts: &mut [OrdersAccount],
    what: &CancelWhat,
    owner: Address,
    sizes: Lots,
    bids: &mut [u8],
    asks: &mut [u8],
    events: &mut [u8],
) -> u32
    requires { CanChange owner (λ account. CanCancel (named_by what.now) owner account
        (cancel_bytes sizes bids.old asks.old events.old)) (reached_by index.now (map orders_account_of accounts.old)) }
    ensures does { HasCancelled (named_by what.entry.now) owner result
        (cancel_bytes sizes bids.old asks.old events.old) (cancel_bytes sizes bids.new asks.new events.new) }
    ensures held { reached_by index.now (map orders_account_of accounts.new)
        ≡ reached_by index.now (map orders_account_of accounts.old) }
{
    let near = index.near(owner, accounts.len());
    cancel_among(
        &mut accounts[near.start..near.end],
        what,
        owner,
        sizes,
        bids,
        asks,
        events,
    )
}
