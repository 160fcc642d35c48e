//! The header of an event queue. After it stand the ring of events and `padding`.

ghost use Rattle.std.specs.Prelude.{◌≡◌, ◌∷◌, [], map};
ghost use Rattle.dex_fields.specs.Tiling.{Tile, span_of};

use crate::field::tiles_by_test;
use crate::{Field, Layout, each_field};

/// The text `serum`.
pub const SERUM: Field = Field { at: 0, len: 5 };

/// What the account is, as a set of flags.
pub const ACCOUNT_FLAGS: Field = Field { at: 5, len: 8 };

/// The place in the ring of the first event in use.
pub const HEAD: Field = Field { at: 13, len: 8 };

/// How many events are in use.
pub const COUNT: Field = Field { at: 21, len: 8 };

/// How many events were ever appended, modulo 2^64.
pub const SEQ_NUM: Field = Field { at: 29, len: 8 };

/// The table of an event queue's header.
pub const LAYOUT: Layout<5> = Layout {
    size: 37,
    fields: each_field!(event_queue),
};

/// The fields tile an event queue's header: each byte is in exactly one of them. Each stands at its offset, with its
/// length in bytes.
pub fn tiles()
    ensures tiled { Tile LAYOUT.fields LAYOUT.size }
    ensures places { map span_of (SERUM ∷ ACCOUNT_FLAGS ∷ HEAD ∷ COUNT ∷ SEQ_NUM ∷ []) ≡ (0, 5) ∷ (5, 8) ∷
        (13, 8) ∷ (21, 8) ∷ (29, 8) ∷ [] }
{
    let mut end = 0;
    each_field!(event_queue, field => {
        prove!(field.at == end);
        end += field.len;
    });
    prove!(end == LAYOUT.size);
    tiles_by_test(&LAYOUT);
}
