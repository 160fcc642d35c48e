//! Walks along the sides that look for an order of an account.

ghost use Rattle.std.specs.Prelude.{◌≡◌, ◌&&◌, ◌==◌};
ghost use Rattle.dex_types.specs.Addresses as addresses;
ghost use Rattle.dex_types.specs.Cancel.{all_orders_of, oldest, order_with, orders_of, taken_by};
ghost use Rattle.dex_types.specs.Side.{by_side};
ghost use Rattle.dex_cancel.specs.Finding as finding;
ghost use Rattle.dex_cancel.specs.Finding.{maybe_resting};

use crate::found::{Found, older_of};
use dex_types::{Address, Order, Side, SideRead, is_same};

/// The order is the account's, and has the client id.
pub fn has_client(order: &Order, account: Address, client: u64) -> bool
    ensures { result ≡ (addresses.is_same account order.now.owner && (order.now.client == client)) }
{
    is_same(account, order.owner) && order.client == client
}

/// The order of an id on the named side.
pub fn find_on<B: SideRead, A: SideRead>(bids: &B, asks: &A, side: Side, id: u128) -> Option<Order>
    requires bids { B.holds bids.now }
    requires asks { A.holds asks.now }
    ensures { result ≡ order_with id (by_side side (B.orders bids.now) (A.orders asks.now)) }
{
    match side {
        Side::Bid => bids.find(id),
        Side::Ask => asks.find(id),
    }
}

/// The account's order of the client id on a side that has the least sequence number.
fn oldest_on<B: SideRead>(book: &B, side: Side, account: Address, client: u64) -> Option<Found>
    requires holds { B.holds book.now }
    ensures { maybe_resting result ≡ oldest client (orders_of account side (B.orders book.now)) }
{
    let mut found = None;
    let mut next = book.best();
    'orders: while let Some(order) = next {
        if has_client(&order, account, client) {
            found = older_of(found, Some(Found { side, order }));
        }
        next = book.after(order.id);
    }
    found
}

/// The account's order of the client id that has the least sequence number.
pub fn find_oldest<B: SideRead, A: SideRead>(
    bids: &B,
    asks: &A,
    account: Address,
    client: u64,
) -> Option<Found>
    requires bids { B.holds bids.now }
    requires asks { A.holds asks.now }
    ensures { maybe_resting result ≡ oldest client (all_orders_of account (B.orders bids.now) (A.orders asks.now)) }
{
    let bid = oldest_on(bids, Side::Bid, account, client);
    let ask = oldest_on(asks, Side::Ask, account, client);
    older_of(bid, ask)
}

/// The order that one client id of a list takes: the same, where it is not 0.
pub fn find_named<B: SideRead, A: SideRead>(
    bids: &B,
    asks: &A,
    account: Address,
    client: u64,
) -> Option<Found>
    requires bids { B.holds bids.now }
    requires asks { A.holds asks.now }
    ensures { maybe_resting result ≡ taken_by client (all_orders_of account (B.orders bids.now) (A.orders asks.now)) }
{
    if client == 0 {
        return None;
    }
    find_oldest(bids, asks, account, client)
}
