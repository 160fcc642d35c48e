//! An open account, for reading and for writing in place.

ghost use Rattle.std.specs.Prelude.{◌≡◌, ◌<◌, ◌≤◌, ◌↔◌, IsNone, IfSome, IsSome, None, Some, slice_index_or, slice_set};
ghost use Rattle.std.specs.Option.{option_map};
ghost use Rattle.dex_types.specs.Trader.{free_slot};
ghost use Rattle.dex_types.specs.Upkeep.{taken_slots};
ghost use Rattle.dex_orders.specs.OrdersAccount.{HasNoOrder, IsOpen, account_of, added, funded, funds_of, market_of, removed, told_holding, with_funds};

use crate::bits::{with_bit, without_bit};
use crate::slots::{with_side, write_slot};
use crate::{Funds, OrdersRef};
use dex_fields::open_orders::{
    FREE_SLOT_BITS, IS_BID_BITS, NATIVE_COIN_FREE, NATIVE_COIN_TOTAL, NATIVE_PC_FREE,
    NATIVE_PC_TOTAL, REFERRER_REBATES_ACCRUED,
};
use dex_fields::{get_u128, put_u64};
use dex_types::{Address, Side};

/// A trader's open account, for reading and for writing in place.
#[derive(Debug, Drop)]
pub struct OrdersView<'a> {
    pub bytes: &'a mut [u8],
}

impl OrdersView<'_> {
    /// The account, for reading.
    fn as_ref(&self) -> OrdersRef<'_>
        ensures { result.bytes.now ≡ self.now.bytes.now }
    {
        OrdersRef { bytes: self.bytes }
    }

    /// The address of the account's market.
    pub fn market(&self) -> Address
        requires { IsOpen self.now.bytes.now }
        ensures { result ≡ market_of self.now.bytes.now }
    {
        self.as_ref().market()
    }

    /// The person whose account it is.
    pub fn owner(&self) -> Address
        requires { IsOpen self.now.bytes.now }
        ensures { result ≡ (account_of self.now.bytes.now).person }
    {
        self.as_ref().owner()
    }

    /// The trader's funds and the referrer part, in native amounts.
    pub fn funds(&self) -> Funds
        requires { IsOpen self.now.bytes.now }
        ensures { result ≡ funds_of (account_of self.now.bytes.now) }
    {
        self.as_ref().funds()
    }

    /// The id, side and client id of the order in the slot; None where the slot is free, and from 128 on.
    pub fn slot(&self, slot: u8) -> Option<(u128, Side, u64)>
        requires { IsOpen self.now.bytes.now }
        ensures { result ≡ option_map told_holding (slice_index_or (account_of self.now.bytes.now).slots slot None) }
    {
        self.as_ref().slot(slot)
    }

    /// How many slots are taken, of 128.
    pub fn taken(&self) -> u8
        requires { IsOpen self.now.bytes.now }
        ensures { result ≡ taken_slots (account_of self.now.bytes.now).slots }
    {
        self.as_ref().taken()
    }

    /// The lowest free slot; None where all 128 are taken.
    pub fn free_slot(&self) -> Option<u8>
        requires { IsOpen self.now.bytes.now }
        ensures none { IsNone result ↔ (taken_slots (account_of self.now.bytes.now).slots ≡ 128) }
        ensures lowest { IfSome result (λ slot. slot ≡ free_slot (account_of self.now.bytes.now).slots) }
        ensures within { IfSome result (λ slot. slot < 128) }
        ensures free { IfSome result (λ slot. slice_index_or (account_of self.now.bytes.now).slots slot None
            ≡ None) }
    {
        self.as_ref().free_slot()
    }

    /// Takes a free slot for an order. It writes the slot's bits, id and client id; all other bytes stay.
    pub fn add(&mut self, slot: u8, id: u128, side: Side, client: u64)
        requires accepted { IsOpen self.old.bytes.now }
        requires slot { slot < 128 }
        requires free { slice_index_or (account_of self.old.bytes.now).slots slot None ≡ None }
        requires fresh { HasNoOrder id side (account_of self.old.bytes.now).slots }
        ensures place { self.new.bytes.ghost_name ≡ self.old.bytes.ghost_name }
        ensures bytes { self.new.bytes.now ≡ added self.old.bytes.now slot id side client }
        ensures market { market_of self.new.bytes.now ≡ market_of self.old.bytes.now }
        ensures words { account_of self.new.bytes.now ≡ record (account_of self.old.bytes.now) {
          slots = slice_set (account_of self.old.bytes.now).slots slot
              (Some (record { id = id; side = side; client = client }));
        } }
        ensures accepted { IsOpen self.new.bytes.now }
    {
        let bytes = &mut *self.bytes;
        let free_bits = without_bit(get_u128(bytes, FREE_SLOT_BITS), slot);
        let bid_bits = with_side(get_u128(bytes, IS_BID_BITS), slot, side);
        write_slot(bytes, slot, free_bits, bid_bits, id, client);
    }

    /// Frees a taken slot, and sets its id, client id and side bit to zero. All other bytes stay.
    pub fn remove(&mut self, slot: u8)
        requires accepted { IsOpen self.old.bytes.now }
        requires taken { IsSome (slice_index_or (account_of self.old.bytes.now).slots slot None) }
        ensures place { self.new.bytes.ghost_name ≡ self.old.bytes.ghost_name }
        ensures bytes { self.new.bytes.now ≡ removed self.old.bytes.now slot }
        ensures market { market_of self.new.bytes.now ≡ market_of self.old.bytes.now }
        ensures words { account_of self.new.bytes.now ≡ record (account_of self.old.bytes.now) {
          slots = slice_set (account_of self.old.bytes.now).slots slot None;
        } }
        ensures accepted { IsOpen self.new.bytes.now }
    {
        let bytes = &mut *self.bytes;
        let free_bits = with_bit(get_u128(bytes, FREE_SLOT_BITS), slot);
        let bid_bits = without_bit(get_u128(bytes, IS_BID_BITS), slot);
        write_slot(bytes, slot, free_bits, bid_bits, 0, 0);
    }

    /// Writes the funds and the referrer part. All other bytes stay.
    pub fn set_funds(&mut self, funds: Funds)
        requires accepted { IsOpen self.old.bytes.now }
        requires coin { funds.coin_free ≤ funds.coin_total }
        requires pc { funds.pc_free ≤ funds.pc_total }
        ensures place { self.new.bytes.ghost_name ≡ self.old.bytes.ghost_name }
        ensures bytes { self.new.bytes.now ≡ funded self.old.bytes.now funds }
        ensures market { market_of self.new.bytes.now ≡ market_of self.old.bytes.now }
        ensures words { account_of self.new.bytes.now ≡ with_funds funds (account_of self.old.bytes.now) }
        ensures accepted { IsOpen self.new.bytes.now }
    {
        let bytes = &mut *self.bytes;
        put_u64(bytes, NATIVE_COIN_FREE, funds.coin_free);
        put_u64(bytes, NATIVE_COIN_TOTAL, funds.coin_total);
        put_u64(bytes, NATIVE_PC_FREE, funds.pc_free);
        put_u64(bytes, NATIVE_PC_TOTAL, funds.pc_total);
        put_u64(bytes, REFERRER_REBATES_ACCRUED, funds.referrer);
    }
}
