//! Takes over any side of the book and the bytes of accounts: an order that trades at once, straight from and to
//! wallets.
#![tactic(auto)]

mod apply;
mod decide;
mod laws;
mod outlook;
mod plan;
mod reasons;
mod take_input;
mod terms;

pub use apply::apply_take;
pub use decide::{decide_take, decide_take_with_pending};
pub use laws::{a_take_leaves_the_market_after_it, what_is_decided_is_the_markets};
pub use plan::{DecidedTake, TakePlan};
pub use reasons::LeastFill;
pub use take_input::{TakeInput, gathered};
pub use terms::take_terms;
