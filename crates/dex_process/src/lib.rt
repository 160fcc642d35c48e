//! One instruction on the account bytes of one market, in place, as a ledger's program does it.
#![tactic(auto)]

mod apart;
mod counting;
mod laws;
mod processing;

pub use apart::process_apart;
pub use counting::pending;
pub use dex_lent::{FlatOrders, LentMarket, OwnedOrders};
pub use dex_plan::Ask;
pub use dex_purse::{LentWallets, Roles, Slot};
pub use dex_ring::PendingFills;
pub use laws::instructions_one_after_another_are_a_legal_history;
pub use processing::{Terms, process};
