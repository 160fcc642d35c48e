//! Putting an order on a side.

ghost use Rattle.std.specs.Prelude.{◌≡◌, ◌+◌, ◌-◌, ◌<◌, ◌≤◌};
ghost use Rattle.dex_types.specs.declared.terms.Side.{Side};
ghost use Rattle.dex_types.specs.BookSide.{CanRest};
ghost use Rattle.dex_types.specs.Posting.{posted};
ghost use Rattle.dex_slab.specs.Changes.{ChangesThreeNodes, KeepsFrame};
ghost use Rattle.dex_slab.specs.Nodes.{bump_of, count_of, free_len_of, root_of};
ghost use Rattle.dex_slab.specs.Slab.{IsSlab, resting, room_in, tree_of};
ghost use Rattle.dex_slab.specs.Walks.{RestsIn, RestsOn, branch_above, nodes_taken, tree_at};

use crate::node_writes::{copy_node, write_inner, write_leaf};
use crate::nodes::Branch;
use crate::pool::take_node;
use crate::walks::{has_bit, insertion_point};
use dex_fields::slab::{LEAF_COUNT, ROOT_NODE};
use dex_fields::{get_u64, put_u32, put_u64};
use dex_types::{Order, Side};

/// Puts the first order on an empty side: its leaf is the root.
fn insert_first(bytes: &mut [u8], order: Order)
    requires slab { IsSlab bytes.old }
    requires empty { count_of bytes.old ≡ 0 }
    requires can_rest { CanRest order }
    ensures slab { IsSlab bytes.new }
    ensures orders { (side : Side) → resting side bytes.new ≡ posted side order (resting side bytes.old) }
    ensures bump { bump_of bytes.new ≡ bump_of bytes.old + (1 - free_len_of bytes.old) }
    ensures freed { free_len_of bytes.new ≡ free_len_of bytes.old - 1 }
    ensures three { ChangesThreeNodes bytes.old bytes.new }
{
    let leaf = take_node(bytes);
    write_leaf(bytes, leaf, order);
    put_u32(bytes, ROOT_NODE, leaf);
    put_u64(bytes, LEAF_COUNT, 1);
}

/// The inner node above a new leaf and the node that it stands beside.
fn branch_above(shared: u32, id: u128, leaf: u32, beside: u32) -> Branch
    requires { shared < 128 }
    ensures { result ≡ branch_above shared id leaf beside }
{
    let (first, second) = if has_bit(shared, id) {
        (beside, leaf)
    } else {
        (leaf, beside)
    };
    Branch {
        prefix: shared,
        key: id,
        first,
        second,
    }
}

/// Puts an order on a side that has others. The node beside which its leaf goes moves to a new place, and the inner
/// node above both takes its old one, so that nothing further up changes.
fn insert_beside(bytes: &mut [u8], order: Order)
    // The side has orders and room for one more, and the order is a new one.
    requires slab { IsSlab bytes.old }
    requires some { 1 ≤ count_of bytes.old }
    requires new { RestsIn order.id (tree_at bytes.old (root_of bytes.old)) → ⊥ }
    requires can_rest { CanRest order }
    requires room { count_of bytes.old < room_in bytes.old }

    // It stands among the others, in book order.
    ensures slab { IsSlab bytes.new }
    ensures orders { (side : Side) → resting side bytes.new ≡ posted side order (resting side bytes.old) }

    // Two nodes are taken, free ones first, and no more than three change.
    ensures bump { bump_of bytes.new ≡ bump_of bytes.old + (2 - free_len_of bytes.old) }
    ensures freed { free_len_of bytes.new ≡ free_len_of bytes.old - 2 }
    ensures three { ChangesThreeNodes bytes.old bytes.new }
{
    let point = insertion_point(bytes, order.id);
    let moved = take_node(bytes);
    let leaf = take_node(bytes);
    copy_node(bytes, point.node, moved);
    write_leaf(bytes, leaf, order);
    let branch = branch_above(point.shared, order.id, leaf, moved);
    write_inner(bytes, point.node, branch);
    let count = get_u64(bytes, LEAF_COUNT);
    put_u64(bytes, LEAF_COUNT, count + 1);
}

/// Puts an order in its place. A new node is the first of the free list, else the first that was never used.
pub fn insert_order(bytes: &mut [u8], order: Order)
    // The side has room for one more, and the order is a new one.
    requires slab { IsSlab bytes.old }
    requires new { RestsOn order.id (tree_of bytes.old) → ⊥ }
    requires can_rest { CanRest order }
    requires room { count_of bytes.old < room_in bytes.old }

    // It stands among the others, in book order.
    ensures slab { IsSlab bytes.new }
    ensures orders { (side : Side) → resting side bytes.new ≡ posted side order (resting side bytes.old) }

    // Nodes are taken from the free list first. No more than three change, and of the rest of the account none.
    ensures bump { bump_of bytes.new
        ≡ bump_of bytes.old + (nodes_taken (count_of bytes.old) - free_len_of bytes.old) }
    ensures freed { free_len_of bytes.new ≡ free_len_of bytes.old - nodes_taken (count_of bytes.old) }
    ensures three { ChangesThreeNodes bytes.old bytes.new }
    ensures frame { KeepsFrame bytes.old bytes.new }
{
    if get_u64(bytes, LEAF_COUNT) == 0 {
        insert_first(bytes, order);
    } else {
        insert_beside(bytes, order);
    }
}
