//! Orders that are posted on a side of the book, by the public call.

ghost use Rattle.dex_book.specs.ListSide.{IsListed};
ghost use Rattle.dex_types.specs.BookSide.{CanRest};
ghost use Rattle.std.specs.Prelude.{◌≤◌};

use dex_book::ListSide;
use dex_match::post_or_boot;
use dex_types::{Address, Order, Side, SideRead};
use std::test::Fail;

/// An order of one lot at a price, told by its client id.
#[tactic(auto, unfolding(dex_types::specs::Side::price_of))]
fn order(price: u64, client: u64) -> Order
    requires { 1 ≤ price }
    ensures { CanRest result }
{
    Order {
        id: price as u128 * (1 << 64) + client as u128,
        owner: Address([7; 32]),
        slot: 0,
        tier: 0,
        lots: 1,
        client,
    }
}

/// Posts an order, where the side has a place and no order of its id; the client id of the order that left for it.
fn post(side: &mut ListSide, order: Order) -> Option<u64>
    requires holds { IsListed side.old }
    requires can_rest { CanRest order }
    ensures { IsListed side.new }
{
    if side.capacity() == 0 || side.find(order.id).is_some() {
        return None;
    }
    post_or_boot(side, order).map(|booted| booted.client)
}

#[test]
fn the_last_order_leaves_a_full_side(rt: HostRuntime) -> Result<(), Fail> {
    let mut bids = ListSide::with_room(rt.alloc(), Side::Bid, 2)?;
    assert!(rt; post(&mut bids, order(50, 1)) == None);
    assert!(rt; post(&mut bids, order(40, 2)) == None);
    assert!(rt; post(&mut bids, order(30, 3)) == Some(2));
    assert!(rt; bids.best().map(|order| order.client) == Some(1));
    assert!(rt; bids.worst().map(|order| order.client) == Some(3));
    let mut one = ListSide::with_room(rt.alloc(), Side::Bid, 1)?;
    assert!(rt; post(&mut one, order(50, 1)) == None);
    assert!(rt; post(&mut one, order(60, 2)) == Some(1));
    assert!(rt; one.best().map(|order| order.client) == Some(2));
    Ok(())
}
