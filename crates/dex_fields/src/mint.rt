//! A mint with the layout of SPL Token.

ghost use Rattle.std.specs.Prelude.{◌≡◌, ◌∷◌, [], map};
ghost use Rattle.dex_fields.specs.Tiling.{Tile, span_of};

use crate::field::tiles_by_test;
use crate::{Field, Layout, each_field};

/// Written as zero and not read.
pub const MINT_AUTHORITY: Field = Field { at: 0, len: 36 };

/// What all its accounts hold together, in native units.
pub const SUPPLY: Field = Field { at: 36, len: 8 };

/// How many decimals an amount is shown with.
pub const DECIMALS: Field = Field { at: 44, len: 1 };

/// 1.
pub const IS_INITIALIZED: Field = Field { at: 45, len: 1 };

/// Written as zero and not read.
pub const FREEZE_AUTHORITY: Field = Field { at: 46, len: 36 };

/// The table of a mint.
pub const LAYOUT: Layout<5> = Layout {
    size: 82,
    fields: each_field!(mint),
};

/// The fields tile a mint: each byte is in exactly one of them. Each stands at its offset, with its length in bytes.
pub fn tiles()
    ensures tiled { Tile LAYOUT.fields LAYOUT.size }
    ensures places { map span_of (MINT_AUTHORITY ∷ SUPPLY ∷ DECIMALS ∷ IS_INITIALIZED ∷ FREEZE_AUTHORITY ∷ []) ≡
        (0, 36) ∷ (36, 8) ∷ (44, 1) ∷ (45, 1) ∷ (46, 36) ∷ [] }
{
    let mut end = 0;
    each_field!(mint, field => {
        prove!(field.at == end);
        end += field.len;
    });
    prove!(end == LAYOUT.size);
    tiles_by_test(&LAYOUT);
}
