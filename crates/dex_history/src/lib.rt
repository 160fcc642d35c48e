//! Histories of a market, and their laws: each row answered by the step at its place. Each law is a function that does
//! nothing, whose contract says it.
#![tactic(auto)]

pub mod balances;
pub mod crossing;
pub mod histories;
pub mod soundness;
