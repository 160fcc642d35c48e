//! The rows of a dump, each by itself: what one states.
#![tactic(auto)]

mod lines;

pub use lines::{Line, LineError, is_first_row, line_of};
