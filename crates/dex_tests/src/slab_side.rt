//! How many orders the account of a side has room for.

ghost use Rattle.std.specs.Prelude.{◌≡◌, ◌≤◌};
ghost use Rattle.dex_types.specs.BookSide.{CanRest};

use dex_book::SlabSide;
use dex_slab::{blank, made_size};
use dex_types::{Address, NoMemory, Order, Side, SideBook, SideRead};
use std::alloc::Global;
use std::test::Fail;

/// A bid of one lot at the lowest price.
#[tactic(auto, unfolding(dex_types::specs::Side::price_of))]
fn bid() -> Order
    ensures { CanRest result }
{
    Order {
        id: 1 << 64,
        owner: Address([7; 32]),
        slot: 0,
        tier: 0,
        lots: 1,
        client: 1,
    }
}

/// How many orders a new account of so many nodes has room for, and how many rest when one was put on.
fn room_of(alloc: Global, nodes: u32) -> Result<(u32, u32), NoMemory>
    requires { (1 ≤ nodes) × (nodes ≤ 65536) }
{
    let mut bytes = vec![in alloc; 0; made_size(nodes)]?;
    blank(&mut bytes, Side::Bid);
    let mut book = SlabSide {
        bytes: &mut bytes,
        side: Side::Bid,
    };
    let room = book.capacity();
    if book.count() < room {
        book.insert(bid());
    }
    Ok((room, book.count()))
}

#[test]
fn a_side_has_room_for_half_of_its_nodes(rt: HostRuntime) -> Result<(), Fail> {
    assert!(rt; room_of(rt.alloc(), 1)? == (1, 1));
    assert!(rt; room_of(rt.alloc(), 909)? == (455, 1));
    Ok(())
}
