//! A list with three orders, on each side of the book.

ghost use Rattle.std.specs.Prelude.{◌≤◌, IfOk};
ghost use Rattle.dex_types.specs.BookSide.{CanRest};
ghost use Rattle.dex_book.specs.ListSide.{IsListed};

use dex_book::ListSide;
use dex_types::{Address, NoMemory, Order, Side, SideBook, SideRead};
use std::alloc::Global;
use std::test::Fail;

/// The ids of one price: the distance of two prices in an id.
const PER_PRICE: u128 = 1 << 64;

/// An order of one lot at a price, told by its client id.
#[tactic(auto, unfolding(dex_types::specs::Side::price_of))]
fn order(price: u64, age: u64, client: u64) -> Order
    requires { 1 ≤ price }
    ensures { CanRest result }
{
    Order {
        id: price as u128 * PER_PRICE + age as u128,
        owner: Address([7; 32]),
        slot: 0,
        tier: 0,
        lots: 1,
        client,
    }
}

/// Puts an order on, where the side has room for it and no order of its id.
fn put(side: &mut ListSide, order: Order)
    requires holds { IsListed side.old }
    requires can_rest { CanRest order }
    ensures { IsListed side.new }
{
    if side.count() < side.capacity() && side.find(order.id).is_none() {
        side.insert(order);
    }
}

/// A side on which three orders rest, two of them at one price.
fn three(alloc: Global, side: Side) -> Result<ListSide, NoMemory>
    ensures { IfOk result IsListed }
{
    let mut list = ListSide::with_room(alloc, side, 3)?;
    put(&mut list, order(50, 8, 1));
    put(&mut list, order(49, 9, 2));
    put(&mut list, order(50, 9, 3));
    put(&mut list, order(48, 1, 4));
    Ok(list)
}

/// The client ids of the side's orders, in book order; 0 where there are fewer than four.
fn clients(side: &ListSide) -> [u64; 4]
    requires { IsListed side.now }
{
    let mut clients = [0; 4];
    let mut next = side.best();
    for place in 0..4 {
        if let Some(order) = next {
            clients[place] = order.client;
            next = if side.find(order.id).is_some() {
                side.after(order.id)
            } else {
                None
            };
        }
    }
    clients
}

// Of bids with one price the one with the greater id is older; of asks the one with the lesser. A full side takes no
// more.
#[test]
fn orders_stand_by_price_and_then_by_age(rt: HostRuntime) -> Result<(), Fail> {
    let bids = three(rt.alloc(), Side::Bid)?;
    assert!(rt; clients(&bids) == [3, 1, 2, 0]);
    let asks = three(rt.alloc(), Side::Ask)?;
    assert!(rt; clients(&asks) == [2, 1, 3, 0]);
    Ok(())
}
