//! The market account: 47 words of 8 bytes between `serum` and `padding`. Word w stands at 5 + 8 * w.

ghost use Rattle.std.specs.Prelude.{◌≡◌, ◌∷◌, [], map};
ghost use Rattle.dex_fields.specs.Tiling.{Tile, span_of};

use crate::field::tiles_by_test;
use crate::{Field, Layout, each_field};

/// The text `serum`, with which every account of the program begins.
pub const SERUM: Field = Field { at: 0, len: 5 };

/// What the account is, as a set of flags.
pub const ACCOUNT_FLAGS: Field = Field { at: 5, len: 8 };

/// The market's own address.
pub const OWN_ADDRESS: Field = Field { at: 13, len: 32 };

/// Stored, with no effect.
pub const VAULT_SIGNER_NONCE: Field = Field { at: 45, len: 8 };

/// The mint that the market trades.
pub const COIN_MINT: Field = Field { at: 53, len: 32 };

/// The mint in which prices are counted.
pub const PC_MINT: Field = Field { at: 85, len: 32 };

/// The token account that holds the coin of all traders.
pub const COIN_VAULT: Field = Field { at: 117, len: 32 };

/// The coin vault's amount less the coin fees, in native coin.
pub const COIN_DEPOSITS_TOTAL: Field = Field { at: 149, len: 8 };

/// Coin fees in the vault, in native coin.
pub const COIN_FEES_ACCRUED: Field = Field { at: 157, len: 8 };

/// The token account that holds the pc of all traders.
pub const PC_VAULT: Field = Field { at: 165, len: 32 };

/// The pc vault's amount less pc fees and referrer rebates, in native pc.
pub const PC_DEPOSITS_TOTAL: Field = Field { at: 197, len: 8 };

/// Fees that can be swept, in native pc.
pub const PC_FEES_ACCRUED: Field = Field { at: 205, len: 8 };

/// Stored, with no effect.
pub const PC_DUST_THRESHOLD: Field = Field { at: 213, len: 8 };

/// The address of the request queue.
pub const REQ_Q: Field = Field { at: 221, len: 32 };

/// The address of the event queue.
pub const EVENT_Q: Field = Field { at: 253, len: 32 };

/// The address of the bids.
pub const BIDS: Field = Field { at: 285, len: 32 };

/// The address of the asks.
pub const ASKS: Field = Field { at: 317, len: 32 };

/// How much native coin a coin lot has.
pub const COIN_LOT_SIZE: Field = Field { at: 349, len: 8 };

/// How much native pc a pc lot has.
pub const PC_LOT_SIZE: Field = Field { at: 357, len: 8 };

/// Stored, with no effect.
pub const FEE_RATE_BPS: Field = Field { at: 365, len: 8 };

/// Referrer parts that no trader has settled yet, in native pc.
pub const REFERRER_REBATES_ACCRUED: Field = Field { at: 373, len: 8 };

/// The text `padding`, with which every account of the program ends.
pub const PADDING: Field = Field { at: 381, len: 7 };

/// The table of a market account.
pub const LAYOUT: Layout<22> = Layout {
    size: 388,
    fields: each_field!(market),
};

/// The fields tile a market account: each byte is in exactly one of them. Each stands at its offset, with its length in
/// bytes.
pub fn tiles()
    ensures tiled { Tile LAYOUT.fields LAYOUT.size }
    ensures places { map span_of (SERUM ∷ ACCOUNT_FLAGS ∷ OWN_ADDRESS ∷ VAULT_SIGNER_NONCE ∷ COIN_MINT ∷ PC_MINT ∷
        COIN_VAULT ∷ COIN_DEPOSITS_TOTAL ∷ COIN_FEES_ACCRUED ∷ PC_VAULT ∷ PC_DEPOSITS_TOTAL ∷ PC_FEES_ACCRUED ∷
        PC_DUST_THRESHOLD ∷ REQ_Q ∷ EVENT_Q ∷ BIDS ∷ ASKS ∷ COIN_LOT_SIZE ∷ PC_LOT_SIZE ∷ FEE_RATE_BPS ∷
        REFERRER_REBATES_ACCRUED ∷ PADDING ∷ []) ≡ (0, 5) ∷ (5, 8) ∷ (13, 32) ∷ (45, 8) ∷ (53, 32) ∷ (85, 32) ∷
        (117, 32) ∷ (149, 8) ∷ (157, 8) ∷ (165, 32) ∷ (197, 8) ∷ (205, 8) ∷ (213, 8) ∷ (221, 32) ∷ (253, 32) ∷
        (285, 32) ∷ (317, 32) ∷ (349, 8) ∷ (357, 8) ∷ (365, 8) ∷ (373, 8) ∷ (381, 7) ∷ [] }
{
    let mut end = 0;
    each_field!(market, field => {
        prove!(field.at == end);
        end += field.len;
    });
    prove!(end == LAYOUT.size);
    tiles_by_test(&LAYOUT);
}
