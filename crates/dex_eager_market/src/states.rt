//! The state of a running market that pays at once.

use crate::accounts::Account;
use crate::listing::Resting;
use dex_types::{Lots, Order};

/// A side of the book: its orders in book order, and how many it has room for.
#[derive(Drop)]
pub struct Book {
    pub room: u32,
    pub orders: Vec<Order>,
}

/// What is counted: the next sequence number, what each account gained and paid, and what the market took of quote.
#[derive(Drop)]
pub struct Till {
    pub next_sequence: u64,
    pub accounts: Vec<Account>,
    pub takings: u128,
}

/// Both sides, what is counted, and room for a list of resting orders.
#[derive(Drop)]
pub struct State {
    pub sizes: Lots,
    pub bids: Book,
    pub asks: Book,
    pub till: Till,
    pub listed: Vec<Resting>,
}
