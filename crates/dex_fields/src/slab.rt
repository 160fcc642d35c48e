//! The header of bids or asks. After it stand the nodes and `padding`.

ghost use Rattle.std.specs.Prelude.{◌≡◌, ◌∷◌, [], map};
ghost use Rattle.dex_fields.specs.Tiling.{Tile, span_of};

use crate::field::tiles_by_test;
use crate::{Field, Layout, each_field};

/// The text `serum`.
pub const SERUM: Field = Field { at: 0, len: 5 };

/// What the account is, as a set of flags.
pub const ACCOUNT_FLAGS: Field = Field { at: 5, len: 8 };

/// The first node that was never used.
pub const BUMP_INDEX: Field = Field { at: 13, len: 8 };

/// How many nodes are free again.
pub const FREE_LIST_LEN: Field = Field { at: 21, len: 8 };

/// The first of the free nodes.
pub const FREE_LIST_HEAD: Field = Field { at: 29, len: 4 };

/// The root of the tree.
pub const ROOT_NODE: Field = Field { at: 33, len: 4 };

/// How many orders rest.
pub const LEAF_COUNT: Field = Field { at: 37, len: 8 };

/// The table of a slab's header.
pub const LAYOUT: Layout<7> = Layout {
    size: 45,
    fields: each_field!(slab),
};

/// The fields tile a slab's header: each byte is in exactly one of them. Each stands at its offset, with its length in
/// bytes.
pub fn tiles()
    ensures tiled { Tile LAYOUT.fields LAYOUT.size }
    ensures places { map span_of (SERUM ∷ ACCOUNT_FLAGS ∷ BUMP_INDEX ∷ FREE_LIST_LEN ∷ FREE_LIST_HEAD ∷ ROOT_NODE ∷
        LEAF_COUNT ∷ []) ≡ (0, 5) ∷ (5, 8) ∷ (13, 8) ∷ (21, 8) ∷ (29, 4) ∷ (33, 4) ∷ (37, 8) ∷ [] }
{
    let mut end = 0;
    each_field!(slab, field => {
        prove!(field.at == end);
        end += field.len;
    });
    prove!(end == LAYOUT.size);
    tiles_by_test(&LAYOUT);
}
