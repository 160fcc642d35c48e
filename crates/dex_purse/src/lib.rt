//! The wallets that an instruction names, lent by a caller: what it sees of them, and how it moves them.
#![tactic(auto)]

mod amounts;
mod laws;
mod lent_wallets;
mod moving;
mod seeing;

pub use amounts::amounts_of;
pub use laws::{wallets_are_seen_as_a_row_sees_them, wallets_move_as_their_row_says};
pub use lent_wallets::{LentWallets, Roles, Slot};
pub use moving::move_wallets;
pub use seeing::seen_as;
