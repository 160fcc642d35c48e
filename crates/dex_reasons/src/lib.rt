//! Why a row is refused, each reason by itself, over what a call reads.
#![tactic(auto)]

mod amounts;
mod parties;
mod wallets;

pub use amounts::{ask_too_large, beyond, no_room, short_by, short_of, time_past, used_up};
pub use parties::{disabled, not_authority, not_owner};
pub use wallets::{
    Payout, is_mint, missing, not_signed, other_discount_mint, other_mint, payer, too_full,
};
