//! All rows of a script, one after the other.
#![tactic(auto)]

mod acting;
pub mod calls;
pub mod laws;
mod replaying;

pub use acting::act_all;
pub use replaying::{replay, replay_with_rows};
