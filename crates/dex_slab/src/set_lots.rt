//! Giving an order of a side other lots.

ghost use Rattle.std.specs.Prelude.{◌≡◌, ◌≤◌};
ghost use Rattle.dex_types.specs.declared.terms.Side.{Side};
ghost use Rattle.dex_types.specs.BookSide.{with_lots};
ghost use Rattle.dex_slab.specs.Changes.{ChangesLotsOf, KeepsFrame};
ghost use Rattle.dex_slab.specs.Slab.{IsSlab, resting, tree_of};
ghost use Rattle.dex_slab.specs.Walks.{RestsOn};

use crate::nodes::start_of;
use crate::walks::find_leaf;
use dex_fields::leaf_node::QUANTITY;
use dex_fields::put_u64;
use dex_types::Side;

/// Gives the order of an id other lots: writes the eight bytes of its leaf that hold them.
pub fn set_order_lots(bytes: &mut [u8], id: u128, lots: u64)
    requires slab { IsSlab bytes.old }
    requires rests { RestsOn id (tree_of bytes.old) }
    requires lots { 1 ≤ lots }
    ensures slab { IsSlab bytes.new }
    ensures orders { (side : Side) → resting side bytes.new ≡ with_lots id lots (resting side bytes.old) }
    ensures eight { ChangesLotsOf id bytes.old bytes.new }
    ensures frame { KeepsFrame bytes.old bytes.new }
{
    let found = find_leaf(bytes, id);
    put_u64(bytes, QUANTITY.moved_by(start_of(found.leaf)), lots);
}
