//! The resting orders of an account, in a list whose room was reserved.

ghost use Rattle.std.specs.Prelude.{◌≡◌, ◌<◌, ◌≤◌, ◌+◌, ◌++◌, ◌==◌, [], ◌∷◌, drop, length, map, slice_get, take};
ghost use Rattle.std.specs.Prelude.{Some, if◌then◌else◌};
ghost use Rattle.std.specs.Vec.{vec_capacity};
ghost use Rattle.dex_types.specs.Cancel as cancel;
ghost use Rattle.dex_types.specs.Tokens as tokens;
ghost use Rattle.dex_eager_market.specs.Listing.{resting_of, resting_there};

use crate::book_list::remove_at;
use dex_types::{Address, Order, Side, is_same};

/// A resting order, with its side.
#[derive(Clone, Copy, Debug)]
pub struct Resting {
    pub side: Side,
    pub order: Order,
}

/// Adds an order to the list, where it is the owner's.
fn push_own(list: &mut Vec<Resting>, side: Side, owner: Address, order: Order)
    requires { length list.old.items < vec_capacity list.old }
    ensures list { map resting_of list.new.items
        ≡ map resting_of list.old.items ++ cancel.orders_of owner side (order ∷ []) }
    ensures within { length list.new.items ≤ length list.old.items + 1 }
    ensures reserved { vec_capacity list.old ≤ vec_capacity list.new }
{
    if is_same(owner, order.owner) {
        list.push(Resting { side, order }).unwrap();
    }
}

/// Adds the owner's orders of a side.
fn add_own(list: &mut Vec<Resting>, side: Side, owner: Address, orders: &[Order])
    requires { length list.old.items + length orders.now ≤ vec_capacity list.old }
    ensures list { map resting_of list.new.items
        ≡ map resting_of list.old.items ++ cancel.orders_of owner side orders.now }
    ensures within { length list.new.items ≤ length list.old.items + length orders.now }
    ensures reserved { vec_capacity list.old ≤ vec_capacity list.new }
{
    for place in 0..orders.len() {
        push_own(list, side, owner, orders[place]);
    }
}

/// The order at a place of the list, if there is one.
pub fn resting_at(list: &[Resting], place: usize) -> Option<Resting>
    ensures { result ≡ slice_get list.now place }
{
    list.get(place).copied()
}

/// Lists the owner's resting orders: its bids and then its asks, each in book order. It takes no memory.
pub fn list_own(list: &mut Vec<Resting>, owner: Address, bids: &[Order], asks: &[Order])
    requires { length bids.now + length asks.now ≤ vec_capacity list.old }
    ensures list { map resting_of list.new.items ≡ cancel.all_orders_of owner bids.now asks.now }
    ensures reserved { vec_capacity list.old ≤ vec_capacity list.new }
{
    list.clear();
    add_own(list, Side::Bid, owner, bids);
    add_own(list, Side::Ask, owner, asks);
}

/// The sequence number of a resting order.
#[tactic(auto, unfolding(dex_types::specs::Side::sequence_of))]
fn age_of(resting: Resting) -> u64
    ensures { result ≡ cancel.age_of (resting_of resting) }
{
    let low = (resting.order.id % 0x1_0000_0000_0000_0000) as u64;
    match resting.side {
        Side::Bid => u64::MAX - low,
        Side::Ask => low,
    }
}

/// The older of two orders, or the first where there is no other.
fn older(first: Resting, other: Option<Resting>) -> Resting
    ensures { resting_of result ≡ cancel.older (resting_of first) (resting_there other) }
{
    match other {
        None => first,
        Some(other) => {
            if age_of(first) <= age_of(other) {
                first
            } else {
                other
            }
        }
    }
}

/// The oldest order with a client id, with one more order before those of which this is the oldest.
fn older_with(first: Resting, client: u64, found: Option<Resting>) -> Option<Resting>
    ensures { resting_there result ≡ (if first.order.client == client
        then Some (cancel.older (resting_of first) (resting_there found)) else resting_there found) }
{
    if first.order.client == client {
        Some(older(first, found))
    } else {
        found
    }
}

/// The oldest order with this client id, if one of these has it.
fn oldest(list: &[Resting], client: u64) -> Option<Resting>
    ensures { resting_there result ≡ cancel.oldest client (map resting_of list.now) }
{
    let mut found = None;
    let mut place = list.len();
    'orders: while place > 0 {
        place -= 1;
        found = older_with(list[place], client, found);
    }
    found
}

/// The order that a client id takes of these: the oldest one that has it; 0 takes none.
pub fn taken_by(list: &[Resting], client: u64) -> Option<Resting>
    ensures { resting_there result ≡ cancel.taken_by client (map resting_of list.now) }
{
    if client == 0 {
        return None;
    }
    oldest(list, client)
}

fn is_same_side(side: Side, other: Side) -> bool
    ensures { result ≡ tokens.is_same_side side other }
{
    match (side, other) {
        (Side::Bid, Side::Bid) => true,
        (Side::Ask, Side::Ask) => true,
        _ => false,
    }
}

/// The two are one order, by side and id.
fn is_same_order(first: Resting, other: Resting) -> bool
    ensures { result ≡ cancel.is_same_order (resting_of first) (resting_of other) }
{
    is_same_side(first.side, other.side) && first.order.id == other.order.id
}

/// The place of an order in the list, or after all where it is not there.
fn place_in(list: &[Resting], gone: Resting) -> usize
    ensures { cancel.without_taken (Some (resting_of gone)) (map resting_of list.now)
        ≡ map resting_of (take result list.now ++ drop (result + 1) list.now) }
{
    for place in 0..list.len() {
        if is_same_order(gone, list[place]) {
            return place;
        }
    }
    list.len()
}

/// Takes an order off the list, where one is given.
pub fn forget(list: &mut Vec<Resting>, gone: Option<Resting>)
    ensures list { map resting_of list.new.items
        ≡ cancel.without_taken (resting_there gone) (map resting_of list.old.items) }
    ensures capacity { vec_capacity list.new ≡ vec_capacity list.old }
{
    if let Some(gone) = gone {
        let place = place_in(list, gone);
        remove_at(list, place);
    }
}
