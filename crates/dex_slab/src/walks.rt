//! Walks down the tree: to where a new key enters, and to the leaf of an order that rests.

ghost use Rattle.std.specs.Prelude.{◌≡◌, ◌<◌, ◌≤◌, ◌==◌, ◌^◌, IfSome, length};
ghost use Rattle.dex_fields.specs.Bytes.{end_of};
ghost use Rattle.dex_slab.specs.Nodes.{branch_of, count_of, key_of, node_field, root_of};
ghost use Rattle.dex_slab.specs.Path.{bit_behind, shared_bits};
ghost use Rattle.dex_slab.specs.Slab.{IsSlab};
ghost use Rattle.dex_slab.specs.Walks.{IsFound, IsInsertionPoint, RestsIn, child_towards, next_towards, tree_at};

use crate::node_reads::key_of;
use crate::nodes::{Branch, branch_of};
use dex_fields::get_u32;
use dex_fields::slab::ROOT_NODE;

/// Where a new key enters the tree.
#[derive(Clone, Copy)]
pub struct InsertionPoint {
    /// The node that is to stand beside the new leaf.
    pub node: u32,
    /// How many leading bits the new key shares with all keys from that node on.
    pub shared: u32,
}

/// The leaf of an order, and the inner node above it, unless it is the root.
#[derive(Clone, Copy)]
pub struct Found {
    pub parent: Option<u32>,
    pub leaf: u32,
}

/// How many leading bits two keys have in common.
#[tactic(auto, unfolding(crate::specs::Path::shared_bits))]
pub fn shared_bits(a: u128, b: u128) -> u32
    ensures { result ≡ shared_bits a b }
{
    (a ^ b).leading_zeros()
}

/// Whether a key has a 1 after its first n bits.
pub fn has_bit(count: u32, key: u128) -> bool
    requires { count < 128 }
    ensures { result ≡ (bit_behind count key == 1) }
{
    key >> (127 - count) & 1 == 1
}

/// The child of an inner node to which a key's bit leads.
pub fn child_towards(id: u128, branch: Branch) -> u32
    requires { branch.prefix < 128 }
    ensures { result ≡ child_towards id branch }
{
    if has_bit(branch.prefix, id) {
        branch.second
    } else {
        branch.first
    }
}

/// The next node on the way of a new key; None where it enters the tree.
fn next_towards(bytes: &[u8], node: u32, id: u128) -> Option<u32>
    requires within { end_of (node_field node) ≤ length bytes.now }
    requires prefix { IfSome (branch_of bytes.now node) (λ branch. branch.prefix < 128) }
    ensures { result ≡ next_towards id (branch_of bytes.now node) }
{
    match branch_of(bytes, node) {
        None => None,
        Some(branch) => {
            if branch.prefix <= shared_bits(branch.key, id) {
                Some(child_towards(id, branch))
            } else {
                None
            }
        }
    }
}

/// Where a new key enters a tree that is not empty.
pub fn insertion_point(bytes: &[u8], id: u128) -> InsertionPoint
    requires slab { IsSlab bytes.now }
    requires some { 1 ≤ count_of bytes.now }
    ensures point { IsInsertionPoint (tree_at bytes.now (root_of bytes.now)) id result.node result.shared }
    ensures key { key_of bytes.now result.node < 2 ^ 128 }
{
    let mut node = get_u32(bytes, ROOT_NODE);
    while let Some(child) = next_towards(bytes, node, id) {
        node = child;
    }
    InsertionPoint {
        node,
        shared: shared_bits(key_of(bytes, node), id),
    }
}

/// The leaf of an order that rests.
pub fn find_leaf(bytes: &[u8], id: u128) -> Found
    requires slab { IsSlab bytes.now }
    requires some { 1 ≤ count_of bytes.now }
    requires rests { RestsIn id (tree_at bytes.now (root_of bytes.now)) }
    ensures { IsFound (tree_at bytes.now (root_of bytes.now)) id result.parent result.leaf }
{
    let mut parent = None;
    let mut node = get_u32(bytes, ROOT_NODE);
    while let Some(branch) = branch_of(bytes, node) {
        parent = Some(node);
        node = child_towards(id, branch);
    }
    Found { parent, leaf: node }
}
