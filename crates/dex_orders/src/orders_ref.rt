//! An open account, for reading.

ghost use Rattle.std.specs.Prelude.{◌≡◌, ◌<◌, ◌↔◌, IsNone, IfSome, None, slice_index_or};
ghost use Rattle.std.specs.Option.{option_map};
ghost use Rattle.dex_types.specs.Trader.{free_slot};
ghost use Rattle.dex_types.specs.Upkeep.{taken_slots};
ghost use Rattle.dex_orders.specs.OrdersAccount.{IsOpen, account_of, funds_of, market_of, told_holding};

use crate::Funds;
use crate::slots::{SLOT_COUNT, holding};
use dex_fields::open_orders::{
    FREE_SLOT_BITS, MARKET, NATIVE_COIN_FREE, NATIVE_COIN_TOTAL, NATIVE_PC_FREE, NATIVE_PC_TOTAL,
    OWNER, REFERRER_REBATES_ACCRUED,
};
use dex_fields::{get_addr, get_u64, get_u128};
use dex_types::{Address, Side};

/// A trader's open account, for reading: its market, its owner, funds, and the orders in its slots.
#[derive(Clone, Copy, Debug)]
pub struct OrdersRef<'a> {
    pub bytes: &'a [u8],
}

impl OrdersRef<'_> {
    /// The address of the account's market.
    pub fn market(&self) -> Address
        requires { IsOpen self.now.bytes.now }
        ensures { result ≡ market_of self.now.bytes.now }
    {
        Address(get_addr(self.bytes, MARKET))
    }

    /// The person whose account it is.
    pub fn owner(&self) -> Address
        requires { IsOpen self.now.bytes.now }
        ensures { result ≡ (account_of self.now.bytes.now).person }
    {
        Address(get_addr(self.bytes, OWNER))
    }

    /// The trader's funds and the referrer part, in native amounts.
    pub fn funds(&self) -> Funds
        requires { IsOpen self.now.bytes.now }
        ensures { result ≡ funds_of (account_of self.now.bytes.now) }
    {
        Funds {
            coin_free: get_u64(self.bytes, NATIVE_COIN_FREE),
            coin_total: get_u64(self.bytes, NATIVE_COIN_TOTAL),
            pc_free: get_u64(self.bytes, NATIVE_PC_FREE),
            pc_total: get_u64(self.bytes, NATIVE_PC_TOTAL),
            referrer: get_u64(self.bytes, REFERRER_REBATES_ACCRUED),
        }
    }

    /// The id, side and client id of the order in the slot; None where the slot is free, and from 128 on.
    pub fn slot(&self, slot: u8) -> Option<(u128, Side, u64)>
        requires { IsOpen self.now.bytes.now }
        ensures { result ≡ option_map told_holding (slice_index_or (account_of self.now.bytes.now).slots slot None) }
    {
        if slot < SLOT_COUNT {
            holding(self.bytes, slot)
        } else {
            None
        }
    }

    /// How many slots are taken, of 128.
    pub fn taken(&self) -> u8
        requires { IsOpen self.now.bytes.now }
        ensures { result ≡ taken_slots (account_of self.now.bytes.now).slots }
    {
        SLOT_COUNT - get_u128(self.bytes, FREE_SLOT_BITS).count_ones() as u8
    }

    /// The lowest free slot; None where all 128 are taken.
    pub fn free_slot(&self) -> Option<u8>
        requires { IsOpen self.now.bytes.now }
        ensures none { IsNone result ↔ (taken_slots (account_of self.now.bytes.now).slots ≡ 128) }
        ensures lowest { IfSome result (λ slot. slot ≡ free_slot (account_of self.now.bytes.now).slots) }
        ensures within { IfSome result (λ slot. slot < 128) }
        ensures free { IfSome result (λ slot. slice_index_or (account_of self.now.bytes.now).slots slot None
            ≡ None) }
    {
        match get_u128(self.bytes, FREE_SLOT_BITS) {
            0 => None,
            bits => Some(bits.trailing_zeros() as u8),
        }
    }
}
