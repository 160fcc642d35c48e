//! All rows of a script, in their order, on several threads: rows that share no market and no wallet act side by side.
#![tactic(auto)]

mod acting;
mod dealing;
mod groups;
mod links;
mod running;
mod shares;
mod windows;

pub use running::{run_batch, run_batch_with_rows};
