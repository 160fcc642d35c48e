//! A body that the contract of a side refuses: it does all that its call promises but one thing. Nothing calls it; an
//! edit in `must-fail` puts it in the call's place.

ghost use Rattle.std.specs.Prelude.{◌≡◌, ◌+◌, Some};
ghost use Rattle.dex_types.specs.declared.terms.Side as sides;
ghost use Rattle.dex_types.specs.Cancel.{order_with, without_order};
ghost use Rattle.dex_slab.specs.Changes.{ChangesThreeNodes, KeepsFrame};
ghost use Rattle.dex_slab.specs.Nodes.{bump_of, count_of, free_len_of};
ghost use Rattle.dex_slab.specs.Slab.{IsSlab, resting, tree_of};
ghost use Rattle.dex_slab.specs.Walks.{RestsOn, nodes_given};

use crate::pool::take_node;
use crate::remove;
use dex_types::Order;

/// Takes the order of an id off the side, and loses one of its nodes: it is neither in the tree nor free again.
pub(crate) fn remove_order(bytes: &mut [u8], id: u128) -> Order
    requires slab { IsSlab bytes.old }
    requires rests { RestsOn id (tree_of bytes.old) }
    ensures order { (side : sides.Side) → order_with id (resting side bytes.old) ≡ Some result }
    ensures orders { (side : sides.Side) → resting side bytes.new ≡ without_order id (resting side bytes.old) }
    ensures bump { bump_of bytes.new ≡ bump_of bytes.old }
    ensures freed { free_len_of bytes.new + 1 ≡ free_len_of bytes.old + nodes_given (count_of bytes.old) }
    ensures three { ChangesThreeNodes bytes.old bytes.new }
    ensures frame { KeepsFrame bytes.old bytes.new }
{
    let order = remove::remove_order(bytes, id);
    take_node(bytes);
    order
}
