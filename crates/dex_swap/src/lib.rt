//! Swaps over two markets: what two legs take, and in which order; and how they act at a bank.
#![tactic(auto)]

mod swap;

pub use dex_turns::{Pair, plan_pair};
pub use swap::swap_two;
