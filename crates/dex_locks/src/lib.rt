//! In which order a row takes what it works on: its market first, and then the wallets that it names.
#![tactic(auto)]

mod insert;
mod plan;

pub use insert::is_lower;
pub use plan::{LockPlan, by_address, plan_locks, plan_wallets};
