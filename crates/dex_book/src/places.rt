//! Where an id stands on a side.

ghost use Rattle.std.specs.Prelude.{◌≡◌, ◌≤◌, length, slice_get, IsSome};
ghost use Rattle.dex_book.specs.Places as places;
ghost use Rattle.dex_types.specs.Cancel as cancel;
ghost use Rattle.dex_types.specs.Posting.{InBookOrder};
ghost use Rattle.dex_types.specs.Side as book;
ghost use Rattle.dex_laws.specs.Posted as posted;

use dex_types::{Order, Side};

/// An order with the first id stands before one with the second.
fn precedes(side: Side, id: u128, other: u128) -> bool
    ensures { result ≡ book.precedes side id other }
{
    match side {
        Side::Bid => other < id,
        Side::Ask => id < other,
    }
}

/// How many of the side's orders stand before an order with this id.
pub fn place_in_book(side: Side, orders: &[Order], id: u128) -> usize
    requires { InBookOrder side orders.now }
    ensures place { result ≡ posted.place_of side id orders.now }
    ensures within { result ≤ length orders.now }
{
    orders.partition_point(|order| precedes(side, order.id, id))
}

/// The order at a place, if there is one.
pub fn order_at(orders: &[Order], place: usize) -> Option<Order>
    ensures { result ≡ slice_get orders.now place }
{
    orders.get(place).copied()
}

/// The order, if there is one and it has this id.
fn with_id(order: Option<Order>, id: u128) -> Option<Order>
    ensures { result ≡ places.with_id id order }
{
    order.filter(|order| order.id == id)
}

/// The order of an id, if one of the side's orders has it.
pub fn order_with(side: Side, orders: &[Order], id: u128) -> Option<Order>
    requires { InBookOrder side orders.now }
    ensures { result ≡ cancel.order_with id orders.now }
{
    let place = place_in_book(side, orders, id);
    with_id(order_at(orders, place), id)
}

/// The place of the resting order of an id.
pub fn resting_place(side: Side, orders: &[Order], id: u128) -> usize
    requires sorted { InBookOrder side orders.now }
    requires rests { IsSome (cancel.order_with id orders.now) }
    ensures { places.IsPlace id orders.now result }
{
    place_in_book(side, orders, id)
}
