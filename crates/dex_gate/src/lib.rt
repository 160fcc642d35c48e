//! The gate that gives one thread its turn: tickets and turns over one value, in which every turn adds one entry to one
//! history.
//!
//! A gate has one value, and passes. Who holds a pass draws a ticket, waits until the ticket's turn has come, has the
//! value to itself, and gives it back with exactly one more entry of the pass's own number. What a pass has seen is a
//! beginning of the one history, and the entries of its number there are those that it made itself, each once.
#![tactic(auto)]

mod bells;
mod board;
mod door;
mod gate;
mod journaled;
mod pass;
mod plays;
mod stage;
mod steps;
mod turn;

pub use dex_types::NoMemory;
pub use door::Door;
pub use gate::Gate;
pub use journaled::Journaled;
pub use pass::Pass;
pub use stage::Stage;
pub use turn::{Away, Turn};

/// The most passes that a gate may have. It has as many bells, so that each ticket that is out has one of its own.
pub const PASSES: usize = 16;
