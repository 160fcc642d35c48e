//! What is known when all rows of a script are done.

use dex_types::{Accounts, Address, Entry, WalletEntry};

/// The journal of one market: its address, and its entries in the order in which the rows acted on it.
#[derive(Debug, Drop)]
pub struct MarketJournal {
    pub address: Address,
    pub entries: Vec<Entry>,
}

/// The journal of one wallet: its address, and its entries in the order in which rows moved its amount.
#[derive(Debug, Drop)]
pub struct WalletJournal {
    pub address: Address,
    pub entries: Vec<WalletEntry>,
}

/// What all rows of a script left: the last accounts, and one journal for each market and each wallet, in declared
/// order.
#[derive(Debug, Drop)]
pub struct Outcome {
    pub accounts: Accounts,
    pub markets: Vec<MarketJournal>,
    pub wallets: Vec<WalletJournal>,
}
