//! Taking an order off a side.

ghost use Rattle.std.specs.Prelude.{◌≡◌, ◌+◌, ◌≤◌, ℕ, [], Some, length};
ghost use Rattle.dex_fields.specs.Bytes.{end_of};
ghost use Rattle.dex_types.specs.declared.terms.Side.{Side};
ghost use Rattle.dex_types.specs.Cancel.{order_with, without_order};
ghost use Rattle.dex_slab.specs.Changes.{ChangesThreeNodes, KeepsFrame};
ghost use Rattle.dex_slab.specs.Nodes.{bump_of, count_of, free_len_of, node_field, root_of};
ghost use Rattle.dex_slab.specs.Slab.{IsSlab, resting, tree_of};
ghost use Rattle.dex_slab.specs.Walks.{IsFound, RestsOn, nodes_given, sibling_of, tree_at};

use crate::node_writes::copy_node;
use crate::nodes::{node_bytes, order_of};
use crate::pool::free_node;
use crate::walks::find_leaf;
use dex_fields::slab::{LEAF_COUNT, ROOT_NODE};
use dex_fields::{get_u32, get_u64, inner_node, put_u32, put_u64};
use dex_types::{Order, Side};

/// The other child of an inner node than this one.
fn sibling_of(bytes: &[u8], parent: u32, child: u32) -> u32
    requires { end_of (node_field parent) ≤ length bytes.now }
    ensures { result ≡ sibling_of bytes.now parent child }
{
    let piece = node_bytes(bytes, parent);
    let first = get_u32(piece, inner_node::FIRST_CHILD);
    if first == child {
        get_u32(piece, inner_node::SECOND_CHILD)
    } else {
        first
    }
}

/// Takes the only order off a side, whose leaf is the root.
fn remove_only(bytes: &mut [u8])
    requires slab { IsSlab bytes.old }
    requires only { count_of bytes.old ≡ 1 }
    ensures slab { IsSlab bytes.new }
    ensures orders { (side : Side) → resting side bytes.new ≡ [] }
    ensures root { root_of bytes.new ≡ 0 }
    ensures bump { bump_of bytes.new ≡ bump_of bytes.old }
    ensures freed { free_len_of bytes.new ≡ free_len_of bytes.old + 1 }
    ensures three { ChangesThreeNodes bytes.old bytes.new }
{
    let leaf = get_u32(bytes, ROOT_NODE);
    free_node(bytes, leaf);
    put_u32(bytes, ROOT_NODE, 0);
    put_u64(bytes, LEAF_COUNT, 0);
}

/// Takes a leaf off that has an inner node above it. The leaf's sibling moves to the inner node's place, and its own
/// node and the leaf are free again.
fn remove_beside(bytes: &mut [u8], parent: u32, leaf: u32)
    requires slab { IsSlab bytes.old }
    requires some { 1 ≤ count_of bytes.old }
    requires found { (id : ℕ) × IsFound (tree_at bytes.old (root_of bytes.old)) id (Some parent) leaf }
    ensures slab { IsSlab bytes.new }
    ensures orders { (id : ℕ) → IsFound (tree_at bytes.old (root_of bytes.old)) id (Some parent) leaf
        → (side : Side) → resting side bytes.new ≡ without_order id (resting side bytes.old) }
    ensures bump { bump_of bytes.new ≡ bump_of bytes.old }
    ensures freed { free_len_of bytes.new ≡ free_len_of bytes.old + 2 }
    ensures three { ChangesThreeNodes bytes.old bytes.new }
{
    let sibling = sibling_of(bytes, parent, leaf);
    copy_node(bytes, sibling, parent);
    free_node(bytes, sibling);
    free_node(bytes, leaf);
    let count = get_u64(bytes, LEAF_COUNT);
    put_u64(bytes, LEAF_COUNT, count - 1);
}

/// Takes the order of an id off the side, and answers it.
pub fn remove_order(bytes: &mut [u8], id: u128) -> Order
    requires slab { IsSlab bytes.old }
    requires rests { RestsOn id (tree_of bytes.old) }
    ensures order { (side : Side) → order_with id (resting side bytes.old) ≡ Some result }
    ensures slab { IsSlab bytes.new }
    ensures orders { (side : Side) → resting side bytes.new ≡ without_order id (resting side bytes.old) }
    ensures bump { bump_of bytes.new ≡ bump_of bytes.old }
    ensures freed { free_len_of bytes.new ≡ free_len_of bytes.old + nodes_given (count_of bytes.old) }
    ensures three { ChangesThreeNodes bytes.old bytes.new }
    ensures frame { KeepsFrame bytes.old bytes.new }
{
    let found = find_leaf(bytes, id);
    let order = order_of(bytes, found.leaf);
    match found.parent {
        None => remove_only(bytes),
        Some(parent) => remove_beside(bytes, parent, found.leaf),
    }
    order
}
