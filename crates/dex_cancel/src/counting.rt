//! How many orders a cancel takes.

ghost use Rattle.std.specs.Prelude.{◌≡◌, ◌<◌, ◌&&◌, ◌==◌, length, nat_lt, not, slice_index, take};
ghost use Rattle.dex_types.specs.Cancel.{all_orders_of, orders_of, taken_by_all};
ghost use Rattle.dex_cancel.specs.Counting.{count_among, count_of_client};

use crate::finding::has_client;
use dex_types::{Address, ClientIds, Side, SideRead, is_same};

/// How many orders of the account rest on a side.
fn count_on<B: SideRead>(book: &B, side: Side, account: Address) -> u32
    requires holds { B.holds book.now }
    ensures { result ≡ length (orders_of account side (B.orders book.now)) }
{
    let _all = book.count();
    let mut count = 0;
    let mut next = book.best();
    'orders: while let Some(order) = next {
        if is_same(account, order.owner) {
            count += 1;
        }
        next = book.after(order.id);
    }
    count
}

/// How many orders of the account rest.
pub fn count_own<B: SideRead, A: SideRead>(bids: &B, asks: &A, account: Address) -> u64
    requires bids { B.holds bids.now }
    requires asks { A.holds asks.now }
    ensures { result ≡ length (all_orders_of account (B.orders bids.now) (A.orders asks.now)) }
{
    u64::from(count_on(bids, Side::Bid, account)) + u64::from(count_on(asks, Side::Ask, account))
}

/// How many orders of the account on a side have the client id.
fn count_client_on<B: SideRead>(book: &B, side: Side, account: Address, client: u64) -> u32
    requires holds { B.holds book.now }
    ensures { result ≡ count_of_client client (orders_of account side (B.orders book.now)) }
{
    let _all = book.count();
    let mut count = 0;
    let mut next = book.best();
    'orders: while let Some(order) = next {
        if has_client(&order, account, client) {
            count += 1;
        }
        next = book.after(order.id);
    }
    count
}

/// How many orders of the account have the client id.
fn count_client<B: SideRead, A: SideRead>(bids: &B, asks: &A, account: Address, client: u64) -> u64
    requires bids { B.holds bids.now }
    requires asks { A.holds asks.now }
    ensures { result ≡ count_of_client client (all_orders_of account (B.orders bids.now) (A.orders asks.now)) }
{
    u64::from(count_client_on(bids, Side::Bid, account, client))
        + u64::from(count_client_on(asks, Side::Ask, account, client))
}

/// How often the client id appears before this place.
pub fn count_before(ids: &[u64; 8], place: usize, client: u64) -> u64
    requires { place < 8 }
    ensures { result ≡ count_among client (take place ids.now) }
{
    let mut count = 0;
    for earlier in 0..place {
        if ids[earlier] == client {
            count += 1;
        }
    }
    count
}

/// The client id at this place takes an order: it is not 0, and the account has more orders of it than the same client
/// id in front of this place took.
fn takes_one<B: SideRead, A: SideRead>(
    bids: &B,
    asks: &A,
    account: Address,
    ids: &[u64; 8],
    place: usize,
) -> bool
    requires bids { B.holds bids.now }
    requires asks { A.holds asks.now }
    requires place { place < 8 }
    ensures { result ≡ (not (slice_index ids.now place == 0)
        && nat_lt (count_among (slice_index ids.now place) (take place ids.now))
        (count_of_client (slice_index ids.now place) (all_orders_of account (B.orders bids.now) (A.orders asks.now)))) }
{
    let client = ids[place];
    let before = count_before(ids, place, client);
    let all = count_client(bids, asks, account, client);
    client != 0 && before < all
}

/// How many orders the client ids take, one after the other.
pub fn count_listed<B: SideRead, A: SideRead>(
    bids: &B,
    asks: &A,
    account: Address,
    ids: &ClientIds,
) -> u32
    requires bids { B.holds bids.now }
    requires asks { A.holds asks.now }
    ensures { result ≡ length (taken_by_all (take ids.now.count ids.now.ids)
        (all_orders_of account (B.orders bids.now) (A.orders asks.now))) }
{
    let mut count = 0;
    for place in 0..usize::from(ids.count) {
        if takes_one(bids, asks, account, &ids.ids, place) {
            count += 1;
        }
    }
    count
}
