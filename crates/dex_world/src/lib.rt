//! Rows of an exchange that act one after the other: definitions, and their laws. Each law is a function that does
//! nothing, whose contract says it. `RowPlaces` stands beside each row.
#![tactic(auto)]

pub mod laws;
mod places;

pub use places::{RowPlaces, RowWallets};
