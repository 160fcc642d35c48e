//! Token accounts and mints with the layout of SPL Token, read and written in place.
#![tactic(auto)]

mod mint;
mod rules;
mod token_check;
mod wallet;

pub use mint::MintRef;
pub use token_check::{check_mint, check_wallet};
pub use wallet::{WalletRef, WalletView};
