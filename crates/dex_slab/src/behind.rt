//! The order after that of an id, on the way down to it.

ghost use Rattle.std.specs.Prelude.{◌≡◌, IfSome, IsSome};
ghost use Rattle.dex_types.specs.BookSide.{order_after};
ghost use Rattle.dex_types.specs.Cancel.{order_with};
ghost use Rattle.dex_slab.specs.Below.{first_below, IsPart};
ghost use Rattle.dex_slab.specs.Tree.{orders_of};
ghost use Rattle.dex_slab.specs.Walks.{tree_at};

use crate::nodes::branch_of;
use crate::search::child_beyond;
use crate::walks::child_towards;
use dex_types::Side;

/// The node below which the order after that of an id comes first, of those below a node: the last on the way down
/// beside which the way turned off towards the front.
pub fn part_behind(bytes: &[u8], side: Side, node: u32, id: u128) -> Option<u32>
    requires part { IsPart bytes.now (tree_at bytes.now node) }
    requires rests { IsSome (order_with id (orders_of side (tree_at bytes.now node))) }
    ensures order { order_after id (orders_of side (tree_at bytes.now node)) ≡ first_below bytes.now side result }
    ensures part { IfSome result (λ n. IsPart bytes.now (tree_at bytes.now n)) }
{
    let mut leaf = node;
    let mut next = None;
    'down: while let Some(branch) = branch_of(bytes, leaf) {
        next = child_beyond(side, branch, id).or(next);
        leaf = child_towards(id, branch);
    }
    next
}
