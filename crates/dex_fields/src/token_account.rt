//! A token account with the layout of SPL Token.

ghost use Rattle.std.specs.Prelude.{◌≡◌, ◌∷◌, [], map};
ghost use Rattle.dex_fields.specs.Tiling.{Tile, span_of};

use crate::field::tiles_by_test;
use crate::{Field, Layout, each_field};

/// The mint of its amount.
pub const MINT: Field = Field { at: 0, len: 32 };

/// Whose account it is.
pub const OWNER: Field = Field { at: 32, len: 32 };

/// What it holds, in native units.
pub const AMOUNT: Field = Field { at: 64, len: 8 };

/// Zero.
pub const DELEGATE: Field = Field { at: 72, len: 36 };

/// 1.
pub const STATE: Field = Field { at: 108, len: 1 };

/// Zero.
pub const IS_NATIVE: Field = Field { at: 109, len: 12 };

/// Zero.
pub const DELEGATED_AMOUNT: Field = Field { at: 121, len: 8 };

/// Zero.
pub const CLOSE_AUTHORITY: Field = Field { at: 129, len: 36 };

/// The table of a token account.
pub const LAYOUT: Layout<8> = Layout {
    size: 165,
    fields: each_field!(token_account),
};

/// The fields tile a token account: each byte is in exactly one of them. Each stands at its offset, with its length in
/// bytes.
pub fn tiles()
    ensures tiled { Tile LAYOUT.fields LAYOUT.size }
    ensures places { map span_of (MINT ∷ OWNER ∷ AMOUNT ∷ DELEGATE ∷ STATE ∷ IS_NATIVE ∷ DELEGATED_AMOUNT ∷
        CLOSE_AUTHORITY ∷ []) ≡ (0, 32) ∷ (32, 32) ∷ (64, 8) ∷ (72, 36) ∷ (108, 1) ∷ (109, 12) ∷ (121, 8) ∷
        (129, 36) ∷ [] }
{
    let mut end = 0;
    each_field!(token_account, field => {
        prove!(field.at == end);
        end += field.len;
    });
    prove!(end == LAYOUT.size);
    tiles_by_test(&LAYOUT);
}
