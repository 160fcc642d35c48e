//! Consuming events: each pays its owner's open-orders account, in place.
#![tactic(auto)]

mod accounts;
mod addresses;
mod crank;
mod kinds;
pub mod laws;
mod payment;
mod queue;

pub use accounts::PaysOrders;
pub use crank::{Consumed, consume, consume_with_pending};
pub use kinds::{Kind, is_final, kind_of};
