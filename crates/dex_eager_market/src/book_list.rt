//! A side of the book as a plain list of its orders, in book order.

ghost use Rattle.std.specs.Prelude.{◌≡◌, ◌≤◌, ◌+◌, ◌-◌, ◌++◌, drop, length, take, nat_lt, if◌then◌else◌, slice_get};
ghost use Rattle.std.specs.Vec.{vec_capacity};
ghost use Rattle.dex_laws.specs.Posted as posted;
ghost use Rattle.dex_types.specs.Cancel as cancel;
ghost use Rattle.dex_types.specs.Posting as posting;
ghost use Rattle.dex_eager_market.specs.Foreseen.{left_by, less_first};

use dex_fills::prices::precedes;
use dex_types::{Order, Side};

/// How many of the orders stand before one with this id.
fn posting_place(side: Side, orders: &[Order], id: u128) -> usize
    ensures place { result ≡ posted.place_of side id orders.now }
    ensures within { result ≤ length orders.now }
{
    for place in 0..orders.len() {
        if !precedes(side, orders[place].id, id) {
            return place;
        }
    }
    orders.len()
}

/// Where the side is full, its last order leaves.
fn make_room(room: u32, orders: &mut Vec<Order>)
    requires { 1 ≤ room }
    ensures orders { orders.new.items ≡ (if nat_lt (length orders.old.items) room then orders.old.items
        else take (length orders.old.items - 1) orders.old.items) }
    ensures capacity { vec_capacity orders.new ≡ vec_capacity orders.old }
{
    if orders.len() >= room as usize {
        orders.remove(orders.len() - 1);
    }
}

/// Posts an order with lots on a side; on a full one the last order leaves first. It takes no memory.
pub fn post(side: Side, room: u32, order: Order, orders: &mut Vec<Order>)
    requires room { 1 ≤ room }
    requires within { length orders.old.items ≤ room }
    requires reserved { room ≤ vec_capacity orders.old }
    ensures orders { orders.new.items ≡ (posting.post side room order orders.old.items).side }
    ensures within { length orders.new.items ≤ room }
    ensures reserved { room ≤ vec_capacity orders.new }
{
    if order.lots == 0 {
        return;
    }
    make_room(room, orders);
    let place = posting_place(side, orders, order.id);
    orders.insert(place, order).unwrap();
}

/// The place of the first order of an id, or after all where none has it.
fn place_with(orders: &[Order], id: u128) -> usize
    ensures found { cancel.order_with id orders.now ≡ slice_get orders.now result }
    ensures without { cancel.without_order id orders.now ≡ take result orders.now ++ drop (result + 1) orders.now }
{
    for place in 0..orders.len() {
        if orders[place].id == id {
            return place;
        }
    }
    orders.len()
}

/// The first order of an id, if one of these has it.
pub fn order_with(orders: &[Order], id: u128) -> Option<Order>
    ensures { result ≡ cancel.order_with id orders.now }
{
    let place = place_with(orders, id);
    orders.get(place).copied()
}

/// Takes the item at a place off a list, if there is one.
pub fn remove_at<T: Copy>(list: &mut Vec<T>, place: usize)
    ensures items { list.new.items ≡ take place list.old.items ++ drop (place + 1) list.old.items }
    ensures capacity { vec_capacity list.new ≡ vec_capacity list.old }
{
    if place < list.len() {
        list.remove(place);
    }
}

/// Takes the first order of an id off, if one of these has it.
pub fn remove_order(orders: &mut Vec<Order>, id: u128)
    ensures orders { orders.new.items ≡ cancel.without_order id orders.old.items }
    ensures capacity { vec_capacity orders.new ≡ vec_capacity orders.old }
{
    let place = place_with(orders, id);
    remove_at(orders, place);
}

/// Takes lots off the first order, if there is one.
fn lessen_first(orders: &mut [Order], part: u64)
    ensures { orders.new ≡ less_first part orders.old }
{
    if orders.len() > 0 {
        orders[0].lots = orders[0].lots.saturating_sub(part);
    }
}

/// Takes the first orders off, and lots off the next one.
pub fn take_front(orders: &mut Vec<Order>, gone: usize, part: u64)
    requires { gone ≤ length orders.old.items }
    ensures left { orders.new.items ≡ left_by gone part orders.old.items }
    ensures capacity { vec_capacity orders.new ≡ vec_capacity orders.old }
{
    for done in 0..gone {
        orders.remove(0);
    }
    lessen_first(orders, part);
}
