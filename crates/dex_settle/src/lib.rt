//! Funds out of a market, and opening, closing and disabling: decided and done over account bytes.
#![tactic(auto)]

mod disable;
mod laws;
mod lifecycle;
mod plan;
mod settle;
mod sweep;

pub use disable::{apply_disable, decide_disable};
pub use laws::{
    a_settling_leaves_the_market_after_it, an_upkeep_leaves_the_market_after_it,
    what_is_opened_or_closed_leaves_the_market_after_it, what_is_refused_is_the_markets,
};
pub use lifecycle::{decide_close, decide_init};
pub use plan::SettlePlan;
pub use settle::{apply_settle, decide_settle};
pub use sweep::{apply_sweep, decide_sweep};
