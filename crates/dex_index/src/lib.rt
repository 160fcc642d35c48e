//! A market's open-orders accounts, found by an index of their addresses, and rows that are decided and done on them.
#![tactic(auto)]

mod applying;
mod deciding;
mod index;
mod indexed_market;
mod indexed_orders;
mod ordering;
mod owned;
mod paying;
mod settling;

pub use applying::apply;
pub use deciding::{decide, decide_into};
pub use index::AccountIndex;
pub use indexed_market::IndexedMarket;
pub use indexed_orders::IndexedOrders;
