//! Markets and wallets that threads share: the values of gates, each with its journal.
//!
//! A turn adds one entry to the journal of each market and wallet that its row acts on. The entries have stamps that
//! rise in every journal, so that all rows can be put into one order; the stamps cost nothing when the program runs.
#![tactic(auto)]

mod items;
mod market;
mod wallet;

pub use market::BankMarket;
pub use wallet::{BankWallet, WalletTrail};
