//! Accounts for reading, as a caller has them.

use dex_types::Address;

/// All accounts of one market. `address` is the market's own; `authority` is the person who signs for it, and stands in
/// no account; `orders` are the open-orders accounts one after another, each as 32 bytes of its address and 3,228 of
/// its data. Bytes behind the last whole one are none's.
#[derive(Clone, Copy)]
pub struct MarketSlices<'a> {
    pub address: Address,
    pub authority: Address,
    pub market: &'a [u8],
    pub coin_vault: &'a [u8],
    pub pc_vault: &'a [u8],
    pub requests: &'a [u8],
    pub events: &'a [u8],
    pub bids: &'a [u8],
    pub asks: &'a [u8],
    pub orders: &'a [u8],
}

/// The wallets that an instruction names, each once, in any order. A place that no role names may have no bytes.
#[derive(Clone, Copy)]
pub struct WalletSlices<'a> {
    pub first_address: Address,
    pub first: &'a [u8],
    pub second_address: Address,
    pub second: &'a [u8],
    pub third_address: Address,
    pub third: &'a [u8],
    pub fourth_address: Address,
    pub fourth: &'a [u8],
}
