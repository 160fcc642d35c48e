//! A leaf of a slab, of tag 2: one resting order.

ghost use Rattle.std.specs.Prelude.{◌≡◌, ◌∷◌, [], map};
ghost use Rattle.dex_fields.specs.Tiling.{Tile, span_of};

use crate::field::tiles_by_test;
use crate::{Field, Layout, each_field};

/// Which kind of node it is.
pub const TAG: Field = Field { at: 0, len: 4 };

/// The order's slot.
pub const OWNER_SLOT: Field = Field { at: 4, len: 1 };

/// The order's tier.
pub const FEE_TIER: Field = Field { at: 5, len: 1 };

/// Written as zero.
pub const PADDING: Field = Field { at: 6, len: 2 };

/// The order's id.
pub const KEY: Field = Field { at: 8, len: 16 };

/// The open-orders account.
pub const OWNER: Field = Field { at: 24, len: 32 };

/// The lots that rest, in coin lots.
pub const QUANTITY: Field = Field { at: 56, len: 8 };

/// The order's client id.
pub const CLIENT_ORDER_ID: Field = Field { at: 64, len: 8 };

/// The table of a leaf.
pub const LAYOUT: Layout<8> = Layout {
    size: 72,
    fields: each_field!(leaf_node),
};

/// The fields tile a leaf: each byte is in exactly one of them. Each stands at its offset, with its length in bytes.
pub fn tiles()
    ensures tiled { Tile LAYOUT.fields LAYOUT.size }
    ensures places { map span_of (TAG ∷ OWNER_SLOT ∷ FEE_TIER ∷ PADDING ∷ KEY ∷ OWNER ∷ QUANTITY ∷
        CLIENT_ORDER_ID ∷ []) ≡ (0, 4) ∷ (4, 1) ∷ (5, 1) ∷ (6, 2) ∷ (8, 16) ∷ (24, 32) ∷ (56, 8) ∷ (64, 8) ∷ [] }
{
    let mut end = 0;
    each_field!(leaf_node, field => {
        prove!(field.at == end);
        end += field.len;
    });
    prove!(end == LAYOUT.size);
    tiles_by_test(&LAYOUT);
}
