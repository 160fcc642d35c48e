//! A script in parts: chains, whose parts follow each other, and shards, which share no market and no wallet. What the
//! parts leave is what the whole leaves.
#![tactic(auto)]

mod chains;
mod joins;
pub mod laws;
mod shards;

pub use chains::chained;
pub use shards::{Shards, shards_of};
