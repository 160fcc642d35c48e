//! An event of the ring.

ghost use Rattle.std.specs.Prelude.{◌≡◌, ◌∷◌, [], map};
ghost use Rattle.dex_fields.specs.Tiling.{Tile, span_of};

use crate::field::tiles_by_test;
use crate::{Field, Layout, each_field};

/// What happened, as a set of flags.
pub const FLAGS: Field = Field { at: 0, len: 1 };

/// The order's slot.
pub const OWNER_SLOT: Field = Field { at: 1, len: 1 };

/// The order's tier.
pub const FEE_TIER: Field = Field { at: 2, len: 1 };

/// Written as zero.
pub const PADDING: Field = Field { at: 3, len: 5 };

/// What the owner gets or gets back.
pub const NATIVE_QTY_RELEASED: Field = Field { at: 8, len: 8 };

/// What the owner gave, or what stays locked.
pub const NATIVE_QTY_PAID: Field = Field { at: 16, len: 8 };

/// The fee of a taker or the rebate of a maker.
pub const NATIVE_FEE_OR_REBATE: Field = Field { at: 24, len: 8 };

/// The order's id.
pub const ORDER_ID: Field = Field { at: 32, len: 16 };

/// The open-orders account.
pub const OWNER: Field = Field { at: 48, len: 32 };

/// The order's client id.
pub const CLIENT_ORDER_ID: Field = Field { at: 80, len: 8 };

/// The table of an event.
pub const LAYOUT: Layout<10> = Layout {
    size: 88,
    fields: each_field!(event),
};

/// The fields tile an event: each byte is in exactly one of them. Each stands at its offset, with its length in bytes.
pub fn tiles()
    ensures tiled { Tile LAYOUT.fields LAYOUT.size }
    ensures places { map span_of (FLAGS ∷ OWNER_SLOT ∷ FEE_TIER ∷ PADDING ∷ NATIVE_QTY_RELEASED ∷ NATIVE_QTY_PAID ∷
        NATIVE_FEE_OR_REBATE ∷ ORDER_ID ∷ OWNER ∷ CLIENT_ORDER_ID ∷ []) ≡ (0, 1) ∷ (1, 1) ∷ (2, 1) ∷ (3, 5) ∷
        (8, 8) ∷ (16, 8) ∷ (24, 8) ∷ (32, 16) ∷ (48, 32) ∷ (80, 8) ∷ [] }
{
    let mut end = 0;
    each_field!(event, field => {
        prove!(field.at == end);
        end += field.len;
    });
    prove!(end == LAYOUT.size);
    tiles_by_test(&LAYOUT);
}
