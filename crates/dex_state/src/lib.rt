//! All accounts of an exchange together, as plain values: when they are accepted and conserved, and what a run leaves.
//! No text.
#![tactic(auto)]

mod outcome;

pub use outcome::{MarketJournal, Outcome, WalletJournal};
