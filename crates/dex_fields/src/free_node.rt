//! A node that is free again, of tag 3, or of tag 4 where it is the last one.

ghost use Rattle.std.specs.Prelude.{◌≡◌, ◌∷◌, [], map};
ghost use Rattle.dex_fields.specs.Tiling.{Tile, span_of};

use crate::field::tiles_by_test;
use crate::{Field, Layout, each_field};

/// Which kind of node it is.
pub const TAG: Field = Field { at: 0, len: 4 };

/// The free node after it.
pub const NEXT: Field = Field { at: 4, len: 4 };

/// Written as zero.
pub const PADDING: Field = Field { at: 8, len: 64 };

/// The table of a free node.
pub const LAYOUT: Layout<3> = Layout {
    size: 72,
    fields: each_field!(free_node),
};

/// The fields tile a free node: each byte is in exactly one of them. Each stands at its offset, with its length in
/// bytes.
pub fn tiles()
    ensures tiled { Tile LAYOUT.fields LAYOUT.size }
    ensures places { map span_of (TAG ∷ NEXT ∷ PADDING ∷ []) ≡ (0, 4) ∷ (4, 4) ∷ (8, 64) ∷ [] }
{
    let mut end = 0;
    each_field!(free_node, field => {
        prove!(field.at == end);
        end += field.len;
    });
    prove!(end == LAYOUT.size);
    tiles_by_test(&LAYOUT);
}
