//! What a row does, once it was decided, over a market's account bytes.
#![tactic(auto)]

mod acting_cancels;
mod acting_events;
mod acting_funds;
mod acting_orders;
mod acting_takes;
mod applying;
mod steps_orders;
mod vaults;

pub use applying::{apply, apply_ask};
pub use steps_orders::StepsOrders;
