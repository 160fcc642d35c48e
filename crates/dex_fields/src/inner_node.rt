//! An inner node of a slab, of tag 1.

ghost use Rattle.std.specs.Prelude.{◌≡◌, ◌∷◌, [], map};
ghost use Rattle.dex_fields.specs.Tiling.{Tile, span_of};

use crate::field::tiles_by_test;
use crate::{Field, Layout, each_field};

/// Which kind of node it is.
pub const TAG: Field = Field { at: 0, len: 4 };

/// How many leading bits all keys below have in common.
pub const PREFIX_LEN: Field = Field { at: 4, len: 4 };

/// A key that begins with those bits.
pub const KEY: Field = Field { at: 8, len: 16 };

/// The node below whose keys have 0 as their next bit.
pub const FIRST_CHILD: Field = Field { at: 24, len: 4 };

/// The node below whose keys have 1 as their next bit.
pub const SECOND_CHILD: Field = Field { at: 28, len: 4 };

/// Written as zero.
pub const PADDING: Field = Field { at: 32, len: 40 };

/// The table of an inner node.
pub const LAYOUT: Layout<6> = Layout {
    size: 72,
    fields: each_field!(inner_node),
};

/// The fields tile an inner node: each byte is in exactly one of them. Each stands at its offset, with its length in
/// bytes.
pub fn tiles()
    ensures tiled { Tile LAYOUT.fields LAYOUT.size }
    ensures places { map span_of (TAG ∷ PREFIX_LEN ∷ KEY ∷ FIRST_CHILD ∷ SECOND_CHILD ∷ PADDING ∷ []) ≡ (0, 4) ∷
        (4, 4) ∷ (8, 16) ∷ (24, 4) ∷ (28, 4) ∷ (32, 40) ∷ [] }
{
    let mut end = 0;
    each_field!(inner_node, field => {
        prove!(field.at == end);
        end += field.len;
    });
    prove!(end == LAYOUT.size);
    tiles_by_test(&LAYOUT);
}
