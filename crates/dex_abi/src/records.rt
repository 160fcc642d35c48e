//! The accounts and the instruction that a caller in C lends.

use crate::numbers::Wide;

/// All accounts of one market, lent: `address` is the market's own, `authority` the person who signs for it and stands
/// in no account, `orders` the open-orders accounts one after another, each as 32 bytes of its address and 3,228 of its
/// data. `pending_coin` and `pending_pc` are the native base and quote that pending makers' fills are still to take off
/// totals.
#[repr(C)]
pub struct MarketBytes<'a> {
    pub address: [u8; 32],
    pub authority: [u8; 32],
    pub market: &'a mut [u8],
    pub coin_vault: &'a mut [u8],
    pub pc_vault: &'a mut [u8],
    pub requests: &'a mut [u8],
    pub events: &'a mut [u8],
    pub bids: &'a mut [u8],
    pub asks: &'a mut [u8],
    pub orders: &'a mut [u8],
    pub pending_coin: Wide,
    pub pending_pc: Wide,
}

/// The wallets that an instruction names, lent, each once, in any order: their addresses and their bytes. A place that
/// no role names may have no bytes.
#[repr(C)]
pub struct WalletsBytes<'a> {
    pub first_address: [u8; 32],
    pub first: &'a mut [u8],
    pub second_address: [u8; 32],
    pub second: &'a mut [u8],
    pub third_address: [u8; 32],
    pub third: &'a mut [u8],
    pub fourth_address: [u8; 32],
    pub fourth: &'a mut [u8],
}

/// An instruction: its signer; the open-orders accounts that it names, the first `named_count` of `named`; its data;
/// the clock; and which of the wallets it names under each role: 0 to 3, or another number where it names none.
/// `program` is 0 for Serum, another number for OpenBook. `srm` and `msrm` are the mints of discounts, where `has_srm`
/// and `has_msrm` are not 0.
#[repr(C)]
pub struct Instruction<'a> {
    pub signer: [u8; 32],
    pub named: [[u8; 32]; 16],
    pub data: &'a [u8],
    pub clock: i64,
    pub named_count: u8,
    pub coin: u8,
    pub pc: u8,
    pub discount: u8,
    pub referrer: u8,
    pub program: u8,
    pub has_srm: u8,
    pub has_msrm: u8,
    pub srm: [u8; 32],
    pub msrm: [u8; 32],
}
