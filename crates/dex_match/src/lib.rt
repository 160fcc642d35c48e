//! New orders over any side of the book and the bytes of accounts: why one is refused, and what it does.
#![tactic(auto)]

mod applying;
mod deciding;
mod foreseeing;
mod intake;
pub mod laws;
mod order_input;
mod order_outlook;
mod order_plan;
mod order_refusals;
mod order_terms;
mod payment;
pub mod side_laws;
mod trading;

pub use applying::{amounts_fit, apply_order};
pub use deciding::{decide_order, decide_order_with_pending};
pub use dex_fills::post_or_boot;
pub use order_input::{OrderInput, gathered};
pub use order_plan::{Decided, OrderPlan};
pub use order_terms::{Taker, terms_of, want_of};
