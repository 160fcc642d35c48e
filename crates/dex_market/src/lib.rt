//! The market account and the request queue, read and written in place.
#![tactic(auto)]

mod faults;
mod funds;
pub mod laws;
mod market_check;
mod market_ref;
mod market_view;
mod request_check;
mod requests;

pub use funds::{MarketFunds, Vaults};
pub use market_check::check_market;
pub use market_ref::MarketRef;
pub use market_view::MarketView;
pub use request_check::check_requests;
pub use requests::{RequestRef, RequestView, SequenceExhausted};
