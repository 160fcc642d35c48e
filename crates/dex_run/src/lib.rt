//! A script's lanes side by side: the bank of the script and its lanes' seats, each lane on a thread of its own, and
//! what they leave.
#![tactic(auto)]

mod building;
mod closing;
mod columns;
mod index;
mod lane;
mod of_cell;
mod running;
mod stay;

pub use building::build;
pub use closing::close;
pub use running::{run, run_with_rows};
