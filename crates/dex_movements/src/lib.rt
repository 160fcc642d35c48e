//! How a row moves the wallets that it names: one movement for each of them.
#![tactic(auto)]

mod amounts;
mod movement;
mod places;

pub use amounts::Amounts;
pub use places::put_moves;
