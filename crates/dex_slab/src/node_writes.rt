//! Writing whole nodes in place.

ghost use Rattle.std.specs.Prelude.{◌≡◌, ◌≤◌, length};
ghost use Rattle.dex_fields.specs.Bytes.{end_of, with_bytes};
ghost use Rattle.dex_slab.specs.Changes.{ChangesNode};
ghost use Rattle.dex_slab.specs.Held.{HasInnerPadding, HasLeafPadding, IsInner, IsLeaf};
ghost use Rattle.dex_slab.specs.Nodes.{node_bytes, node_field};

use crate::nodes::{Branch, NODE_SIZE, node_bytes, start_of};
use crate::pieces::{inner_piece, leaf_piece};
use dex_types::Order;

/// Writes the 72 bytes of a node; all other bytes stay.
pub fn put_node(bytes: &mut [u8], node: u32, piece: &[u8; 72])
    requires { end_of (node_field node) ≤ length bytes.old }
    ensures bytes { bytes.new ≡ with_bytes bytes.old (node_field node) piece.now }
    ensures node { node_bytes bytes.new node ≡ piece.now }
    ensures changes { ChangesNode node bytes.old bytes.new }
{
    let start = start_of(node);
    bytes[start..start + NODE_SIZE].copy_from_slice(piece);
}

/// Makes a node a leaf with this order.
pub fn write_leaf(bytes: &mut [u8], node: u32, order: Order)
    requires { end_of (node_field node) ≤ length bytes.old }
    ensures leaf { IsLeaf (node_bytes bytes.new node) order }
    ensures padding { HasLeafPadding (node_bytes bytes.new node) }
    ensures changes { ChangesNode node bytes.old bytes.new }
{
    put_node(bytes, node, &leaf_piece(order));
}

/// Makes a node an inner node.
pub fn write_inner(bytes: &mut [u8], node: u32, branch: Branch)
    requires { end_of (node_field node) ≤ length bytes.old }
    ensures inner { IsInner (node_bytes bytes.new node) branch.prefix branch.key branch.first branch.second }
    ensures padding { HasInnerPadding (node_bytes bytes.new node) }
    ensures changes { ChangesNode node bytes.old bytes.new }
{
    put_node(bytes, node, &inner_piece(branch));
}

/// Copies a node over another one.
pub fn copy_node(bytes: &mut [u8], from: u32, to: u32)
    requires from { end_of (node_field from) ≤ length bytes.old }
    requires to { end_of (node_field to) ≤ length bytes.old }
    ensures copied { node_bytes bytes.new to ≡ node_bytes bytes.old from }
    ensures changes { ChangesNode to bytes.old bytes.new }
{
    let mut piece = [0u8; NODE_SIZE];
    piece.copy_from_slice(node_bytes(bytes, from));
    put_node(bytes, to, &piece);
}
