//! Scripts: accounts to start from, and the instruction rows that lanes hand in, read from comma-separated values.
#![tactic(auto)]

mod draft;
mod fault;
mod instruction;
mod known;
mod laws;
mod making;
mod market;
mod markets;
mod mints;
mod names;
mod pieces;
mod reader;
mod reading;
mod setup;
mod swap;
mod taken;

pub use dex_script_types::Script;
pub use fault::ScriptError;
pub use instruction::{exceeds_row, make_room, push_placed, take_row};
pub use laws::{
    a_dump_at_the_start_is_accepted, a_script_for_batches_has_no_swap,
    a_script_for_batches_is_one_for_every_command, a_script_has_its_limits, a_script_starts_sound,
    a_script_without_swaps_is_one_for_batches, rows_of_a_script_are_in_order,
};
pub use making::MakeMarkets;
pub use market::DeclaredMarket;
pub use markets::make_markets;
pub use names::{Names, Stand};
pub use reader::Reader;
pub use reading::{
    Begun, ReadRows, begin_script, read_rows, read_script, read_script_by, read_script_within,
};
pub use swap::is_bad_swap;
