//! Scripts played part by part: some rows are read, act, and are heard, and then the next. So no more than two parts of
//! a script's rows, and what one leaves in journals, are in memory.
#![tactic(auto)]

mod listener;
mod parts;
mod playing;
mod sizes;

pub use listener::Listener;
pub use playing::{Played, play};
