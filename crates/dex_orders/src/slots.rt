//! The 128 slots of an open-orders account.

ghost use Rattle.std.specs.Prelude.{◌≡◌, ◌≢◌, ℕ, ◌<◌, length, None, Some, slice_set};
ghost use Rattle.std.specs.Option.{option_map};
ghost use Rattle.dex_fields.specs.Bytes.{number_in};
ghost use Rattle.dex_types.specs.Side.{by_side};
ghost use Rattle.dex_orders.specs.Bits.{is_set, with_bit, without_bit};
ghost use Rattle.dex_orders.specs.OrdersAccount.{AreDistinct, IsOpen, account_of, client_field, hold_one, holding_of, id_field, market_of, side_by_bit, slot_in, slots_of, told_holding, with_slot};

use crate::bits::{is_set, with_bit, without_bit};
use dex_fields::open_orders::{CLIENT_ORDER_IDS, FREE_SLOT_BITS, IS_BID_BITS, ORDERS};
use dex_fields::{get_u64, get_u128, put_u64, put_u128};
use dex_types::Side;

/// How many slots an account has.
pub const SLOT_COUNT: u8 = 128;

/// Whether no order holds the slot.
pub fn is_free(bytes: &[u8], slot: u8) -> bool
    requires size { length bytes.now ≡ 3228 }
    requires slot { slot < 128 }
    ensures { result ≡ is_set (number_in bytes.now FREE_SLOT_BITS) slot }
{
    is_set(get_u128(bytes, FREE_SLOT_BITS), slot)
}

/// The id that stands in the slot.
pub fn id_in(bytes: &[u8], slot: u8) -> u128
    requires size { length bytes.now ≡ 3228 }
    requires slot { slot < 128 }
    ensures { result ≡ number_in bytes.now (id_field slot) }
{
    get_u128(bytes, ORDERS.item(16, slot as usize))
}

fn client_in(bytes: &[u8], slot: u8) -> u64
    requires size { length bytes.now ≡ 3228 }
    requires slot { slot < 128 }
    ensures { result ≡ number_in bytes.now (client_field slot) }
{
    get_u64(bytes, CLIENT_ORDER_IDS.item(8, slot as usize))
}

fn side_in(bytes: &[u8], slot: u8) -> Side
    requires size { length bytes.now ≡ 3228 }
    requires slot { slot < 128 }
    ensures { result ≡ side_by_bit (is_set (number_in bytes.now IS_BID_BITS) slot) }
{
    if is_set(get_u128(bytes, IS_BID_BITS), slot) {
        Side::Bid
    } else {
        Side::Ask
    }
}

/// The order's id, side and client id, where the slot is taken.
#[tactic(auto, unfolding(crate::specs::OrdersAccount::slot_in))]
pub fn holding(bytes: &[u8], slot: u8) -> Option<(u128, Side, u64)>
    requires size { length bytes.now ≡ 3228 }
    requires slot { slot < 128 }
    ensures { result ≡ option_map told_holding (slot_in bytes.now slot) }
{
    if is_free(bytes, slot) {
        None
    } else {
        Some((
            id_in(bytes, slot),
            side_in(bytes, slot),
            client_in(bytes, slot),
        ))
    }
}

/// Whether both slots hold one order, by its id and side.
#[tactic(auto, unfolding(crate::specs::OrdersAccount::slot_in))]
pub fn hold_one(bytes: &[u8], slot: u8, other: u8) -> bool
    requires size { length bytes.now ≡ 3228 }
    requires slot { slot < 128 }
    requires other { other < 128 }
    ensures { result ≡ hold_one (slot_in bytes.now slot) (slot_in bytes.now other) }
{
    match (holding(bytes, slot), holding(bytes, other)) {
        (Some((id, side, _)), Some((other_id, other_side, _))) => {
            id == other_id && side == other_side
        }
        _ => false,
    }
}

/// Writes the four parts of a slot; the bits of the other slots are as they were.
pub fn write_slot(
    bytes: &mut [u8],
    slot: u8,
    free_bits: u128,
    bid_bits: u128,
    id: u128,
    client: u64,
)
    requires accepted { IsOpen bytes.old }
    requires slot { slot < 128 }
    requires free_others { (other : ℕ) → other < 128 → other ≢ slot
        → is_set free_bits other ≡ is_set (number_in bytes.old FREE_SLOT_BITS) other }
    requires bid_others { (other : ℕ) → other < 128 → other ≢ slot
        → is_set bid_bits other ≡ is_set (number_in bytes.old IS_BID_BITS) other }
    ensures bytes { bytes.new ≡ with_slot bytes.old slot free_bits bid_bits id client }
    ensures market { market_of bytes.new ≡ market_of bytes.old }
    ensures words { account_of bytes.new ≡ record (account_of bytes.old) {
      slots = slice_set (slots_of bytes.old) slot (holding_of (is_set free_bits slot) (is_set bid_bits slot) id client);
    } }
    ensures accepted { AreDistinct (slots_of bytes.new) → IsOpen bytes.new }
{
    put_u128(bytes, FREE_SLOT_BITS, free_bits);
    put_u128(bytes, IS_BID_BITS, bid_bits);
    put_u128(bytes, ORDERS.item(16, slot as usize), id);
    put_u64(bytes, CLIENT_ORDER_IDS.item(8, slot as usize), client);
}

/// The side bits with the slot's for this side.
pub fn with_side(bid_bits: u128, slot: u8, side: Side) -> u128
    requires { slot < 128 }
    ensures bits { result ≡ by_side side (with_bit bid_bits slot) (without_bit bid_bits slot) }
    ensures same { side_by_bit (is_set result slot) ≡ side }
    ensures others { (other : ℕ) → other < 128 → other ≢ slot
        → is_set result other ≡ is_set bid_bits other }
{
    match side {
        Side::Bid => with_bit(bid_bits, slot),
        Side::Ask => without_bit(bid_bits, slot),
    }
}
