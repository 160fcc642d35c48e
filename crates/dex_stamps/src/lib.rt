//! Stamps: numbers that order what is done on several journals. Only clauses read them, and they cost nothing when the
//! program runs.
#![tactic(auto)]

mod kept;
mod log;
mod stamp;

pub use kept::Kept;
pub use log::Log;
pub use stamp::Stamp;
