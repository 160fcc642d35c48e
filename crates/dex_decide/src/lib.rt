//! Whether a row is refused by its market, and what it is to do there else, decided over the bytes of the market's
//! accounts.
#![tactic(auto)]

mod deciding;
mod named;
mod ordering;
mod rows;
mod taking;

pub use dex_plan::{Ask, Deposit, Plan, what_is_decided_is_of_the_step};
pub use rows::{decide, decide_ask, decide_into, taker_by, taker_of};
