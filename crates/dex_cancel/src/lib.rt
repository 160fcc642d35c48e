//! Cancels: which resting orders a cancel takes from the two sides of the book, and the outs that it appends to the
//! event queue.
#![tactic(auto)]

mod applying;
mod counting;
mod deciding;
mod finding;
mod found;
mod laws;
mod pruning;
pub mod steps;
mod taking;
mod what;

pub use applying::apply_cancel;
pub use deciding::decide_cancel;
pub use laws::a_market_is_left_by_its_parts;
pub use what::CancelWhat;
