//! The texts that a run of the exchange writes: the report of a replay, made scripts, and the summary of a large run.
#![tactic(auto)]

mod bulk;
mod fitting;
mod growing;
mod laws;
mod lines;
mod made;
mod made_rows;
mod made_setup;
mod part;
mod pieces;
mod report;
mod told;
mod writing;

pub use bulk::{Counts, bulk_text, summary_text};
pub use dex_state::{MarketJournal, Outcome, WalletJournal};
pub use growing::{JournalText, JournalTexts};
pub use laws::{movements_stand_from_the_front, one_reading, what_fits_is_told};
pub use lines::{LINE, write_entry, write_head};
pub use made::make_script;
pub use pieces::report_pieces;
pub use report::report_text;
