//! The words after the program's name, and the command that they are.
#![tactic(auto)]

mod command;
pub mod laws;
mod positionals;
mod reading;

pub use command::{Command, PlainCommand, ThreadedCommand, WordsError};
pub use reading::read_words;
