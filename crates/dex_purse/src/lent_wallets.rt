//! Wallets as a caller lends them, and which of them is named under each role.

use dex_types::Address;

/// The wallets that an instruction names, each once, in any order: their addresses and their bytes. A place that no
/// role names may have no bytes.
#[derive(Drop)]
pub struct LentWallets<'a> {
    pub first_address: Address,
    pub first: &'a mut [u8],
    pub second_address: Address,
    pub second: &'a mut [u8],
    pub third_address: Address,
    pub third: &'a mut [u8],
    pub fourth_address: Address,
    pub fourth: &'a mut [u8],
}

/// One of the four.
#[derive(Clone, Copy)]
pub enum Slot {
    First,
    Second,
    Third,
    Fourth,
}

/// Which of the wallets an instruction names under each role. Two roles may name one wallet.
#[derive(Clone, Copy)]
pub struct Roles {
    pub coin: Option<Slot>,
    pub pc: Option<Slot>,
    pub discount: Option<Slot>,
    pub referrer: Option<Slot>,
}
