//! What a row that its market does not refuse is to do there, and what that plan tells of the row's step.
#![tactic(auto)]

mod ask;
mod laws;
mod plan;

pub use ask::{Ask, ask_of};
pub use laws::what_is_decided_is_of_the_step;
pub use plan::{Deposit, Plan};
