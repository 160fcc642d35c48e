//! A market's accounts as a caller lends them: slices of their bytes, and whatever holds the open-orders accounts.
#![tactic(auto)]

mod flat;
mod laws;
mod lent_market;
mod orders;
mod read_market;

pub use flat::{DATA, FlatOrders, RECORD, data_at};
pub use laws::whole_records_are_told_by_their_accounts;
pub use lent_market::LentMarket;
pub use orders::{OrdersAccounts, OwnedOrders};
pub use read_market::ReadMarket;
