//! What one row of a script states by itself, or the first fault that it has by itself, whatever stands in other rows.
//!
//! A row is a record of comma-separated values. Setup rows make accounts, instruction rows hand an instruction to a
//! lane, a `swap` row two takes on two markets, and a `program` or a `clock` row chooses the program or sets the clock.
#![tactic(auto)]

mod faults;
mod fields;
mod forms;
mod instruction;
mod order_words;
mod parties;
mod setup;
mod statement;
mod swap;
mod words;

pub use faults::{FaultKind, RowError, SetupCode};
pub use forms::Form;
pub use instruction::{InstructionWords, read_instruction};
pub use parties::Parties;
pub use setup::MarketWords;
pub use statement::{Statement, statement_of};
pub use swap::{LegWords, SwapWords};
