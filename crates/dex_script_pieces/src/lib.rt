//! Scripts read by several threads, each some of the rows.
#![tactic(auto)]

mod guesses;
mod making;
mod piece;
mod reading;

pub use reading::read_script;
