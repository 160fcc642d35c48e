//! One market, whole: all its accounts in their bytes, the parcels that its vaults are, and its journal.
#![tactic(auto)]

mod call_record;
mod journal;
mod market_cell;
mod payouts;

pub use dex_decide::{Deposit, Plan};
pub use dex_purse::amounts_of;
pub use market_cell::MarketCell;
pub use payouts::{Deposits, Payouts};
