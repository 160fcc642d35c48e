//! Scripts, and what holds of each: accounts to start from, and the instruction rows that lanes hand in.
#![tactic(auto)]

mod addresses;
mod placing;
mod row_list;
mod script;

pub use addresses::{addresses_of_markets, addresses_of_wallets, push_address, push_named};
pub use placing::{FindsWallets, is_role, wallets_at};
pub use row_list::RowList;
pub use script::Script;
