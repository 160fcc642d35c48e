//! One row, on its market's cell and on the cells of the wallets that it names; and the two legs of a swap.
#![tactic(auto)]

mod as_row;
mod places;
mod probes;
mod rows;
mod sight;
mod steps;
mod wallets;

pub use as_row::{AsRow, PlacedRow};
pub use dex_process::Terms;
pub use places::WalletPlaces;
pub use steps::{Legs, RowAt, RowDone, step, step_two};
