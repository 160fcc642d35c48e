//! Ways down a side's tree: to its first order, and by the bits of an id.

ghost use Rattle.std.specs.Prelude.{◌≡◌, ◌<◌, ◌≤◌, Some, [], ◌∷◌, length};
ghost use Rattle.dex_fields.specs.Bytes.{end_of};
ghost use Rattle.dex_types.specs.declared.terms.Side.{Side};
ghost use Rattle.dex_types.specs.BookSide.{best_of};
ghost use Rattle.dex_types.specs.Cancel.{order_with};
ghost use Rattle.dex_types.specs.Side.{by_side};
ghost use Rattle.dex_slab.specs.Below as part;
ghost use Rattle.dex_slab.specs.Nodes.{node_field, order_of};
ghost use Rattle.dex_slab.specs.Tree.{orders_of};
ghost use Rattle.dex_slab.specs.Walks.{tree_at};

use crate::nodes::{Branch, branch_of};
use crate::walks::{child_towards, has_bit};
use dex_types::Side;

/// The child below which the orders come first on a side: of bids those of the greater ids, of asks those of the
/// lesser.
pub fn near_child(side: Side, branch: Branch) -> u32
    ensures { result ≡ by_side side branch.second branch.first }
{
    match side {
        Side::Bid => branch.second,
        Side::Ask => branch.first,
    }
}

/// The leaf of the order that comes first on a side, of those below a node.
pub fn first_leaf(bytes: &[u8], side: Side, node: u32) -> u32
    requires { part.IsPart bytes.now (tree_at bytes.now node) }
    ensures order { best_of (orders_of side (tree_at bytes.now node)) ≡ Some (order_of bytes.now result) }
    ensures inside { end_of (node_field result) ≤ length bytes.now }
{
    let mut leaf = node;
    'down: while let Some(branch) = branch_of(bytes, leaf) {
        leaf = near_child(side, branch);
    }
    leaf
}

/// The child whose orders come next on a side after those of the child to which an id leads, if there is one.
pub fn child_beyond(side: Side, branch: Branch, id: u128) -> Option<u32>
    requires { branch.prefix < 128 }
    ensures { result ≡ part.child_beyond side id branch }
{
    match (side, has_bit(branch.prefix, id)) {
        (Side::Bid, true) => Some(branch.first),
        (Side::Ask, false) => Some(branch.second),
        _ => None,
    }
}

/// The leaf to which the bits of an id lead, of those below a node.
pub fn leaf_towards(bytes: &[u8], node: u32, id: u128) -> u32
    requires { part.IsPart bytes.now (tree_at bytes.now node) }
    ensures order { (side : Side) → order_with id (orders_of side (tree_at bytes.now node))
        ≡ order_with id (order_of bytes.now result ∷ []) }
    ensures inside { end_of (node_field result) ≤ length bytes.now }
{
    let mut leaf = node;
    'down: while let Some(branch) = branch_of(bytes, leaf) {
        leaf = child_towards(id, branch);
    }
    leaf
}
