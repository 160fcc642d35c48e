//! Whether the bytes that a caller has are the accounts of a sound market, and token accounts; and an instruction on
//! them.
#![tactic(auto)]

mod both;
mod checking;
mod copying;
mod flaw;
mod laws;
mod market_slices;
mod row_law;
mod twice;
mod wallets;

pub use both::check_both;
pub use checking::check;
pub use dex_audit::Finding;
pub use flaw::Flaw;
pub use laws::a_sound_market_has_no_flaw;
pub use market_slices::{MarketSlices, WalletSlices};
pub use row_law::instructions_of_rows_are_answered_as_the_rows;
pub use wallets::check_wallets;
