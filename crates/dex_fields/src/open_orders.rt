//! An open-orders account: one trader's funds and slots on one market.

ghost use Rattle.std.specs.Prelude.{◌≡◌, ◌∷◌, [], map};
ghost use Rattle.dex_fields.specs.Tiling.{Tile, span_of};

use crate::field::tiles_by_test;
use crate::{Field, Layout, each_field};

/// The text `serum`.
pub const SERUM: Field = Field { at: 0, len: 5 };

/// What the account is, as a set of flags.
pub const ACCOUNT_FLAGS: Field = Field { at: 5, len: 8 };

/// The address of its market.
pub const MARKET: Field = Field { at: 13, len: 32 };

/// The person whose account it is.
pub const OWNER: Field = Field { at: 45, len: 32 };

/// Native coin that no order locks.
pub const NATIVE_COIN_FREE: Field = Field { at: 77, len: 8 };

/// All native coin of the trader.
pub const NATIVE_COIN_TOTAL: Field = Field { at: 85, len: 8 };

/// Native pc that no order locks.
pub const NATIVE_PC_FREE: Field = Field { at: 93, len: 8 };

/// All native pc of the trader.
pub const NATIVE_PC_TOTAL: Field = Field { at: 101, len: 8 };

/// Bit i is set where slot i is free.
pub const FREE_SLOT_BITS: Field = Field { at: 109, len: 16 };

/// Bit i is set where slot i holds a bid.
pub const IS_BID_BITS: Field = Field { at: 125, len: 16 };

/// The ids of 128 slots, 16 bytes each.
pub const ORDERS: Field = Field { at: 141, len: 2048 };

/// The client ids of 128 slots, 8 bytes each.
pub const CLIENT_ORDER_IDS: Field = Field {
    at: 2189,
    len: 1024,
};

/// The trader's referrer part, in native pc.
pub const REFERRER_REBATES_ACCRUED: Field = Field { at: 3213, len: 8 };

/// The text `padding`.
pub const PADDING: Field = Field { at: 3221, len: 7 };

/// The table of an open-orders account.
pub const LAYOUT: Layout<14> = Layout {
    size: 3228,
    fields: each_field!(open_orders),
};

/// The fields tile an open-orders account: each byte is in exactly one of them. Each stands at its offset, with its
/// length in bytes.
pub fn tiles()
    ensures tiled { Tile LAYOUT.fields LAYOUT.size }
    ensures places { map span_of (SERUM ∷ ACCOUNT_FLAGS ∷ MARKET ∷ OWNER ∷ NATIVE_COIN_FREE ∷ NATIVE_COIN_TOTAL ∷
        NATIVE_PC_FREE ∷ NATIVE_PC_TOTAL ∷ FREE_SLOT_BITS ∷ IS_BID_BITS ∷ ORDERS ∷ CLIENT_ORDER_IDS ∷
        REFERRER_REBATES_ACCRUED ∷ PADDING ∷ []) ≡ (0, 5) ∷ (5, 8) ∷ (13, 32) ∷ (45, 32) ∷ (77, 8) ∷ (85, 8) ∷
        (93, 8) ∷ (101, 8) ∷ (109, 16) ∷ (125, 16) ∷ (141, 2048) ∷ (2189, 1024) ∷ (3213, 8) ∷ (3221, 7) ∷ [] }
{
    let mut end = 0;
    each_field!(open_orders, field => {
        prove!(field.at == end);
        end += field.len;
    });
    prove!(end == LAYOUT.size);
    tiles_by_test(&LAYOUT);
}
