//! A side of the book in an account with another number of nodes.

ghost use Rattle.std.specs.Prelude.{◌≡◌, ◌≤◌, [], length, IfOk};
ghost use Rattle.dex_slab.specs.Blank.{made_size};
ghost use Rattle.dex_slab.specs.Changes.{KeepsFrame};
ghost use Rattle.dex_slab.specs.Nodes.{room_of};
ghost use Rattle.dex_slab.specs.Slab.{IsSlab, resting, room_in};
ghost use Rattle.dex_slab.specs.StandsFor.{IsSideAccount};
ghost use Rattle.dex_migrate.specs.Migrated.{IsSideOf};

use dex_make::zeros;
use dex_slab::{SlabRef, SlabView, blank, made_size};
use dex_types::{NoMemory, Side, SideBook, SideRead};
use std::alloc::Global;

/// Puts the orders of a side on an empty one, the best first.
fn copy_orders(from: &SlabRef<'_>, to: &mut SlabView<'_>)
    // The orders fit the empty side.
    requires from { IsSlab from.now.bytes.now }
    requires to { IsSlab to.old.bytes.now }
    requires side { from.now.side ≡ to.old.side }
    requires empty { resting to.old.side to.old.bytes.now ≡ [] }
    requires fits { length (resting to.old.side from.now.bytes.now) ≤ room_in to.old.bytes.now }

    // They rest there. Side, room and place stay.
    ensures orders { resting to.new.side to.new.bytes.now ≡ resting to.old.side from.now.bytes.now }
    ensures holds { IsSlab to.new.bytes.now }
    ensures side { to.new.side ≡ to.old.side }
    ensures room { room_in to.new.bytes.now ≡ room_in to.old.bytes.now }
    ensures place { (to.new.bytes.ghost_name ≡ to.old.bytes.ghost_name)
        × KeepsFrame to.old.bytes.now to.new.bytes.now }
{
    let mut next = from.best();
    'orders: while let Some(order) = next {
        to.insert(order);
        next = from.after(order.id);
    }
}

/// Like `copy_orders`, from bytes to bytes.
pub fn copy_bytes(from: &[u8], to: &mut [u8], side: Side)
    requires from { IsSlab from.now }
    requires to { IsSlab to.old }
    requires empty { resting side to.old ≡ [] }
    requires fits { length (resting side from.now) ≤ room_in to.old }
    ensures orders { resting side to.new ≡ resting side from.now }
    ensures holds { IsSlab to.new }
    ensures room { room_in to.new ≡ room_in to.old }
    ensures frame { KeepsFrame to.old to.new }
{
    let from = SlabRef { bytes: from, side };
    copy_orders(&from, &mut SlabView { bytes: to, side });
}

/// An account of a side with this many nodes and the orders of this one, which fit.
pub fn migrate_side(alloc: Global, side: Side, old: &[u8], nodes: u32) -> Result<Vec<u8>, NoMemory>
    requires old { IsSideAccount side old.now }
    requires some { 1 ≤ nodes }
    requires few { nodes ≤ 65536 }
    requires fits { length (resting side old.now) ≤ room_of nodes }
    ensures { IfOk result (λ bytes. IsSideOf side nodes old.now bytes.items) }
{
    let mut bytes = zeros(alloc, made_size(nodes))?;
    fill_side(&mut bytes, side, old, nodes);
    Ok(bytes)
}

/// Makes the bytes an account of the side with these orders.
fn fill_side(bytes: &mut [u8], side: Side, old: &[u8], nodes: u32)
    requires old { IsSideAccount side old.now }
    requires some { 1 ≤ nodes }
    requires few { nodes ≤ 65536 }
    requires fits { length (resting side old.now) ≤ room_of nodes }
    requires size { length bytes.old ≡ made_size nodes }
    ensures { IsSideOf side nodes old.now bytes.new }
{
    blank(bytes, side);
    copy_bytes(old, bytes, side);
}
