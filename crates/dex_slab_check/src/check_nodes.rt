//! The rules of single nodes of a slab's tree, and of a node and its child.

ghost use Rattle.std.specs.Prelude.{◌≡◌, ◌<◌, ◌≤◌, ◌≢◌, ◌⊎◌, ◌↔◌, length, IsTrue, MatchResult};
ghost use Rattle.dex_types.specs.BookSide.{CanRest};
ghost use Rattle.dex_slab_check.specs.Checked.{IsSoundChild, IsSoundNode};
ghost use Rattle.dex_slab_check.specs.Faults.{BreaksBelow, BreaksChild, BreaksGrowth, BreaksKey, BreaksLength, BreaksNode, BreaksOrder, IsTreeNode};
ghost use Rattle.dex_slab.specs.Nodes.{bump_of, key_of, nodes_within, order_of, prefix_of, tag_of};
ghost use Rattle.dex_slab.specs.Slab.{IsSlabSize};
ghost use Rattle.dex_slab.specs.Tree.{Begins};

use crate::numbers::{bump, prefix_len};
use crate::slab_fault::SlabFault;
use dex_slab::node_reads::key_of;
use dex_slab::nodes::{INNER, LEAF, order_of, tag_of};
use dex_types::Order;

/// The rules that speak of one node of the tree by itself: 3, 4, 6 and 10.
pub(crate) fn node_rule(bytes: &[u8], node: u32) -> Result<(), SlabFault>
    requires size { IsSlabSize (length bytes.now) }
    requires bump { bump_of bytes.now ≤ nodes_within (length bytes.now) }
    ensures { MatchResult result (λ _. IsSoundNode bytes.now node) (λ fault. BreaksNode bytes.now node fault) }
{
    below_rule(bytes, node)?;
    match tag_of(bytes, node) {
        INNER => length_rule(bytes, node),
        LEAF => order_rule(node, &order_of(bytes, node)),
        other => Err(SlabFault::of_node(4, node, u128::from(other), 2)),
    }
}

/// Rule 3: the node was used at some time.
pub(crate) fn below_rule(bytes: &[u8], node: u32) -> Result<(), SlabFault>
    requires { IsSlabSize (length bytes.now) }
    ensures { MatchResult result (λ _. node < bump_of bytes.now) (λ fault. BreaksBelow bytes.now node fault) }
{
    let used = bump(bytes);
    if u64::from(node) < used {
        Ok(())
    } else {
        Err(SlabFault::of_node(3, node, u128::from(node), u128::from(used)))
    }
}

/// Rule 6, of one inner node: its prefix leaves a bit.
fn length_rule(bytes: &[u8], node: u32) -> Result<(), SlabFault>
    requires node { node < nodes_within (length bytes.now) }
    requires inner { tag_of bytes.now node ≡ 1 }
    ensures { MatchResult result (λ _. prefix_of bytes.now node < 128) (λ fault. BreaksLength bytes.now node fault) }
{
    let prefix = prefix_len(bytes, node);
    if prefix < 128 {
        Ok(())
    } else {
        Err(SlabFault::of_node(6, node, u128::from(prefix), 127))
    }
}

/// Rule 10: the order of a leaf can rest.
#[tactic(auto, unfolding(dex_types::specs::Side::price_of))]
fn order_rule(node: u32, order: &Order) -> Result<(), SlabFault>
    ensures { MatchResult result (λ _. CanRest order.now) (λ fault. BreaksOrder node order.now fault) }
{
    if order.id >> 64 == 0 {
        Err(SlabFault::of_node(10, node, 0, 1))
    } else if order.lots == 0 {
        Err(SlabFault::of_node(10, node, 0, 1))
    } else if order.slot >= 128 {
        Err(SlabFault::of_node(10, node, u128::from(order.slot), 127))
    } else if order.tier >= 7 {
        Err(SlabFault::of_node(10, node, u128::from(order.tier), 6))
    } else {
        Ok(())
    }
}

/// The rules of the child of an inner node whose keys have this bit next: those of the child by itself, 6 and 7.
pub(crate) fn child_rule(bytes: &[u8], node: u32, bit: u8, child: u32) -> Result<(), SlabFault>
    requires size { IsSlabSize (length bytes.now) }
    requires bump { bump_of bytes.now ≤ nodes_within (length bytes.now) }
    requires node { node < bump_of bytes.now }
    requires short { prefix_of bytes.now node < 128 }
    requires bit { bit < 2 }
    ensures { MatchResult result
        (λ _. IsSoundChild bytes.now node bit child)
        (λ fault. BreaksNode bytes.now child fault ⊎ BreaksChild bytes.now node bit child fault) }
{
    node_rule(bytes, child)?;
    growth_rule(bytes, node, child)?;
    key_rule(bytes, node, bit, child)
}

/// Rule 6, of an inner node and an inner child: the prefix grows.
fn growth_rule(bytes: &[u8], node: u32, child: u32) -> Result<(), SlabFault>
    requires node { node < nodes_within (length bytes.now) }
    requires child { child < nodes_within (length bytes.now) }
    requires short { prefix_of bytes.now node < 128 }
    ensures { MatchResult result
        (λ _. tag_of bytes.now child ≡ 1 → prefix_of bytes.now node < prefix_of bytes.now child)
        (λ fault. BreaksGrowth bytes.now node child fault) }
{
    let prefix = prefix_len(bytes, node);
    let below = prefix_len(bytes, child);
    if tag_of(bytes, child) != INNER || prefix < below {
        Ok(())
    } else {
        Err(SlabFault::of_node(6, child, u128::from(below), u128::from(prefix) + 1))
    }
}

/// Rule 7, of an inner node and a child: the child's key begins with the prefix, and then has the child's bit.
fn key_rule(bytes: &[u8], node: u32, bit: u8, child: u32) -> Result<(), SlabFault>
    requires node { node < nodes_within (length bytes.now) }
    requires child { child < nodes_within (length bytes.now) }
    requires known { IsTreeNode bytes.now child }
    requires short { prefix_of bytes.now node < 128 }
    requires bit { bit < 2 }
    ensures { MatchResult result
        (λ _. Begins (prefix_of bytes.now node) (key_of bytes.now node) bit (key_of bytes.now child))
        (λ fault. BreaksKey bytes.now node bit child fault) }
{
    let above = key_of(bytes, node);
    let below = key_of(bytes, child);
    if begins(prefix_len(bytes, node) as u8, above, bit, below) {
        Ok(())
    } else {
        Err(SlabFault::of_node(7, child, below, above))
    }
}

/// Whether a key begins with this many bits of another one, and then has this bit.
#[tactic(auto, unfolding(dex_slab::specs::Tree::first_bits))]
fn begins(prefix: u8, other: u128, bit: u8, key: u128) -> bool
    requires short { prefix < 128 }
    requires bit { bit < 2 }
    ensures { IsTrue result ↔ Begins prefix other bit key }
{
    let rest = 127 - prefix;
    let front = key >> rest;
    front % 2 == u128::from(bit) && front / 2 == (other >> rest) / 2
}
