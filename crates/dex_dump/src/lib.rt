//! Dumps: all accounts of the exchange as rows of text, written and read.
#![tactic(auto)]

mod alone;
mod checks;
pub mod faults;
mod laws;
mod pieces;
mod reader;
mod reading;
mod taken;
mod taking;
mod writing;

pub use alone::check_accounts;
pub use checks::Failed;
pub use dex_dump_rows::is_first_row;
pub use faults::{DumpError, DumpFault};
pub use laws::{
    checks_of_a_market_hold_exactly_where_it_is_accepted, one_text_is_of_one_exchange,
    what_is_read_is_accepted, what_is_written_is_read_back,
};
pub use pieces::{Piece, Pieces};
pub use reader::{DumpRead, read_dump, read_dump_within, read_rows};
pub use taken::TakenAddresses;
pub use taking::{append_taken, into_dump, take_accounts, take_market_rows};
pub use writing::{
    append_dump, room_of_dump, room_of_market, write_dump, write_front, write_market_rows,
};
