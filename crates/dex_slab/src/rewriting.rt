//! A body that writes a whole new tree: it does all that its call promises, but that few nodes change. Nothing calls
//! it; an edit in `must-fail` puts it in the call's place.

ghost use Rattle.std.specs.Prelude.{◌≡◌, ◌+◌, ◌-◌, ◌<◌};
ghost use Rattle.dex_types.specs.BookSide.{CanRest};
ghost use Rattle.dex_types.specs.Posting.{posted};
ghost use Rattle.dex_slab.specs.Changes.{KeepsFrame};
ghost use Rattle.dex_slab.specs.Nodes.{bump_of, count_of, free_len_of};
ghost use Rattle.dex_slab.specs.Slab.{IsSlab, resting, room_in, tree_of};
ghost use Rattle.dex_slab.specs.Walks.{RestsOn, nodes_taken};

use crate::{SlabRef, insert, remove};
use dex_types::{Order, Side, SideRead};

/// Takes all orders off into a list, which is the stack of these calls, and writes a whole new tree of them: more than
/// three nodes change.
pub(crate) fn write_whole_tree(bytes: &mut [u8], side: Side)
    requires { IsSlab bytes.old }
    ensures slab { IsSlab bytes.new }
    ensures orders { resting side bytes.new ≡ resting side bytes.old }
    ensures bump { bump_of bytes.new ≡ bump_of bytes.old }
    ensures freed { free_len_of bytes.new ≡ free_len_of bytes.old }
    ensures frame { KeepsFrame bytes.old bytes.new }
{
    if let Some(order) = (SlabRef { bytes, side }).best() {
        remove::remove_order(bytes, order.id);
        write_whole_tree(bytes, side);
        insert::insert_order(bytes, order);
    }
}

/// Puts an order in its place, and writes a whole new tree.
pub(crate) fn insert_order(bytes: &mut [u8], order: Order, side: Side)
    requires slab { IsSlab bytes.old }
    requires new { RestsOn order.id (tree_of bytes.old) → ⊥ }
    requires can_rest { CanRest order }
    requires room { count_of bytes.old < room_in bytes.old }
    ensures slab { IsSlab bytes.new }
    ensures orders { resting side bytes.new ≡ posted side order (resting side bytes.old) }
    ensures bump { bump_of bytes.new
        ≡ bump_of bytes.old + (nodes_taken (count_of bytes.old) - free_len_of bytes.old) }
    ensures freed { free_len_of bytes.new ≡ free_len_of bytes.old - nodes_taken (count_of bytes.old) }
    ensures frame { KeepsFrame bytes.old bytes.new }
{
    insert::insert_order(bytes, order);
    write_whole_tree(bytes, side);
}
