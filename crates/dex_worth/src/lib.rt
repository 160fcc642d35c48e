//! What every trader's account is worth, fills that are not yet consumed included: a ledger that is read off journals,
//! of a whole script or part by part, and last accounts; and the law that a market that pays each fill at once has the
//! same.
#![tactic(auto)]

pub mod amounts;
mod entries;
pub mod holdings;
pub mod laws;
mod ledger;
mod rows;
mod table;
mod text;

pub use entries::Moved;
pub use ledger::{Ledger, ledgers_of, take_journals};
pub use table::{Worth, WorthRow, table_of, worth_table};
pub use text::worth_text;
