use crate::addresses::Address;

/// An open-orders account of a market, or the place that is reserved for it: its address and its bytes.
#[derive(Debug, Drop, PartialEq, Eq)]
pub struct OrdersAccount {
    pub address: Address,
    pub bytes: Vec<u8>,
}

/// All accounts of one market as bytes: the market, its two vaults, its queues and sides, and its open-orders accounts
/// in declared order. `address` is the market's own; `authority` is the person who signs for it, and stands in no
/// account.
#[derive(Debug, Drop, PartialEq, Eq)]
pub struct MarketAccounts {
    pub address: Address,
    pub authority: Address,
    pub market: Vec<u8>,
    pub coin_vault: Vec<u8>,
    pub pc_vault: Vec<u8>,
    pub requests: Vec<u8>,
    pub events: Vec<u8>,
    pub bids: Vec<u8>,
    pub asks: Vec<u8>,
    pub orders: Vec<OrdersAccount>,
}

/// A mint or a wallet: its address and its bytes.
#[derive(Debug, Drop, PartialEq, Eq)]
pub struct Named {
    pub address: Address,
    pub bytes: Vec<u8>,
}

/// All accounts, in declared order: mints, wallets and markets, and which of the mints are SRM and MSRM.
#[derive(Debug, Drop, PartialEq, Eq)]
pub struct Accounts {
    pub mints: Vec<Named>,
    pub srm: Option<Address>,
    pub msrm: Option<Address>,
    pub wallets: Vec<Named>,
    pub markets: Vec<MarketAccounts>,
}
