//! The rules of a slab's tree, node by node from its root.

ghost use Rattle.std.specs.Prelude.{◌≡◌, ◌+◌, ◌≤◌, length, IfSome, MatchResult};
ghost use Rattle.dex_types.specs.declared.terms.Side.TheVariants.{Ask};
ghost use Rattle.dex_slab_check.specs.Checked.{IsSizedRoot, IsSizedTree, IsSoundNode};
ghost use Rattle.dex_slab_check.specs.Faults.{BreaksAmong};
ghost use Rattle.dex_slab.specs.Nodes.{bump_of, nodes_within, prefix_of, tag_of};
ghost use Rattle.dex_slab.specs.Slab.{IsSlabSize, nodes_in, tree_of};
ghost use Rattle.dex_slab.specs.Tree.{nodes_of, tree_from};

use crate::check_nodes::{child_rule, node_rule};
use crate::numbers::{first_child, leaf_count, root, second_child};
use crate::slab_fault::SlabFault;
use dex_slab::nodes::{LEAF, tag_of};

/// A way down has at most 128 inner nodes, since their prefixes grow, and a leaf.
const DEPTH: u8 = 129;

/// How many nodes a tree has, and how many of them are leaves.
#[derive(Clone, Copy, Debug, PartialEq, Eq)]
pub(crate) struct TreeSize {
    pub(crate) nodes: u32,
    pub(crate) leaves: u32,
}

/// The rules of the tree, which has no node where no order rests.
pub(crate) fn check_root(bytes: &[u8]) -> Result<TreeSize, SlabFault>
    requires size { IsSlabSize (length bytes.now) }
    requires bump { bump_of bytes.now ≤ nodes_within (length bytes.now) }
    ensures { MatchResult result
        (λ size. IsSizedRoot bytes.now (tree_of bytes.now) size.nodes size.leaves)
        (λ fault. BreaksAmong bytes.now (nodes_in (tree_of bytes.now)) fault) }
{
    if leaf_count(bytes) == 0 {
        return Ok(TreeSize {
            nodes: 0,
            leaves: 0,
        });
    }
    let root = root(bytes);
    node_rule(bytes, root)?;
    check_tree(bytes, root, DEPTH)
}

/// The rules of the tree that begins at a node which keeps those of a single node. A child is held against its parent
/// before it is gone to, so that no node is gone to twice: its key tells the way to it.
fn check_tree(bytes: &[u8], node: u32, steps: u8) -> Result<TreeSize, SlabFault>
    requires size { IsSlabSize (length bytes.now) }
    requires bump { bump_of bytes.now ≤ nodes_within (length bytes.now) }
    requires sound { IsSoundNode bytes.now node }
    requires some { 1 ≤ steps }
    requires enough { tag_of bytes.now node ≡ 1 → 129 ≤ prefix_of bytes.now node + steps }
    ensures { MatchResult result
        (λ size. IsSizedTree bytes.now node (tree_from steps bytes.now node) size.nodes size.leaves)
        (λ fault. BreaksAmong bytes.now (nodes_of (tree_from steps bytes.now node)) fault) }
{
    if tag_of(bytes, node) == LEAF {
        return Ok(TreeSize {
            nodes: 1,
            leaves: 1,
        });
    }
    let first = first_child(bytes, node);
    let second = second_child(bytes, node);
    child_rule(bytes, node, 0, first)?;
    child_rule(bytes, node, 1, second)?;
    let left = check_tree(bytes, first, steps - 1)?;
    let right = check_tree(bytes, second, steps - 1)?;
    Ok(TreeSize {
        nodes: left.nodes + right.nodes + 1,
        leaves: left.leaves + right.leaves,
    })
}
