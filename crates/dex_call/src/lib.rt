//! The commands on one thread as functions of bytes, for callers that have the memory for what a command answers; and
//! an instruction on the accounts of a market, with their check.
#![tactic(auto)]

mod calling;
mod calls;
mod cutting;
mod parts;
mod replies;
mod wide;
mod writing;

pub use calls::{audit, bulk, dump, make, migrate, replay, worth};
pub use dex_check::check;
pub use dex_process::process;
pub use parts::{chained, chained_wide, shards, shards_wide};
pub use replies::reply_text;
pub use wide::{audit_wide, dump_wide, migrate_wide, replay_wide, worth_wide};
