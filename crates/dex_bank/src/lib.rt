//! All markets and wallets of an exchange, on one thread.
#![tactic(auto)]

mod cells;
mod closing;
mod copying;
mod counting;
mod opening;
mod room;
mod standing;
mod stepping;

pub use cells::Cells;
pub use room::Room;
