//! A market's accounts, lent.

use dex_types::Address;

/// All accounts of one market as bytes that a caller lends: the market, its two vaults, its queues and sides, and
/// whatever holds its open-orders accounts. `address` is the market's own; `authority` is the person who signs for it,
/// and stands in no account.
#[derive(Drop)]
pub struct LentMarket<'a, O> {
    pub address: Address,
    pub authority: Address,
    pub market: &'a mut [u8],
    pub coin_vault: &'a mut [u8],
    pub pc_vault: &'a mut [u8],
    pub requests: &'a mut [u8],
    pub events: &'a mut [u8],
    pub bids: &'a mut [u8],
    pub asks: &'a mut [u8],
    pub orders: &'a mut O,
}
