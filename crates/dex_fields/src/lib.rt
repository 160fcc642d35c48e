//! Layouts of the program's accounts: a table of fields for each, and typed access to one field in place.
#![tactic(auto)]

mod empty;
pub mod event;
pub mod event_queue;
mod field;
mod frame;
pub mod free_node;
pub mod inner_node;
pub mod leaf_node;
pub mod market;
pub mod mint;
pub mod open_orders;
mod put;
pub mod request_queue;
pub mod slab;
mod tables;
pub mod token_account;

pub use empty::{FLAGS, write_empty_account};
pub use field::{Field, Layout, get_addr, get_u8, get_u32, get_u64, get_u128};
pub use frame::{Difference, END_TEXT, FRONT, FRONT_TEXT, frame_difference};
pub use put::{put_addr, put_piece, put_u8, put_u32, put_u64, put_u128};
