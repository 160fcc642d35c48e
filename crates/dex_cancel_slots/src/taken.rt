//! Which slots of an account are taken, by their bits, and what a slot holds.

ghost use Rattle.std.specs.Prelude.{◌≡◌, ◌≤◌, ◌<◌, true};
ghost use Rattle.dex_orders.specs.Bits.{is_set};
ghost use Rattle.dex_orders.specs.OrdersAccount.{IsOpen};
ghost use Rattle.dex_cancel_slots.specs.Given.{slots_in};
ghost use Rattle.dex_cancel_slots.specs.Slots.{AreBitsOf, AreClear, AreFree, IsClientOf, IsIdOf, held_in, is_on};

use dex_fields::open_orders::{CLIENT_ORDER_IDS, FREE_SLOT_BITS, IS_BID_BITS, ORDERS};
use dex_fields::{get_u64, get_u128};
use dex_orders::OrdersRef;
use dex_types::Side;

/// A number of slots after which all are free: it counts the last taken one and those before it, which no clause says.
#[tactic(auto, using(crate::proofs::TakenLaws::free_behind))]
pub fn taken_end(orders: &OrdersRef<'_>) -> u8
    requires { IsOpen orders.now.bytes.now }
    ensures within { result ≤ 128 }
    ensures free { AreFree (slots_in orders.now) result 128 }
{
    let taken = !get_u128(orders.bytes, FREE_SLOT_BITS);
    128 - taken.leading_zeros() as u8
}

/// The bits of the slots that hold an order of the side.
pub fn side_bits(orders: &OrdersRef<'_>, side: Side) -> u128
    requires { IsOpen orders.now.bytes.now }
    ensures { AreBitsOf (is_on side) (slots_in orders.now) result }
{
    let taken = !get_u128(orders.bytes, FREE_SLOT_BITS);
    let bids = get_u128(orders.bytes, IS_BID_BITS);
    match side {
        Side::Bid => taken & bids,
        Side::Ask => taken & !bids,
    }
}

/// The first place from this one on whose bit is set; 128 where none is.
pub fn next_set(bits: u128, from: u8) -> u8
    requires from { from ≤ 128 }
    ensures after { from ≤ result }
    ensures within { result ≤ 128 }
    ensures clear { AreClear bits from result }
    ensures set { result < 128 → is_set bits result ≡ true }
{
    if from == 128 {
        return 128;
    }
    let rest = bits >> from;
    if rest == 0 {
        return 128;
    }
    from + rest.trailing_zeros() as u8
}

/// The client id of the slot's order. Of a free slot it says nothing.
pub fn client_at(orders: &OrdersRef<'_>, slot: u8) -> u64
    requires open { IsOpen orders.now.bytes.now }
    requires slot { slot < 128 }
    ensures { IsClientOf (held_in (slots_in orders.now) slot) result }
{
    get_u64(orders.bytes, CLIENT_ORDER_IDS.item(8, slot as usize))
}

/// The id of the slot's order. Of a free slot it says nothing.
pub fn id_at(orders: &OrdersRef<'_>, slot: u8) -> u128
    requires open { IsOpen orders.now.bytes.now }
    requires slot { slot < 128 }
    ensures { IsIdOf (held_in (slots_in orders.now) slot) result }
{
    get_u128(orders.bytes, ORDERS.item(16, slot as usize))
}
