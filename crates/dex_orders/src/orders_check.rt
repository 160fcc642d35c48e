//! The check of an open-orders account, by the rules that need that account alone.

ghost use Rattle.std.specs.Prelude.{◌≡◌, ◌^◌, ◌<◌, ◌≤◌, ◌↔◌, length, IsOk};
ghost use Rattle.std.specs.Result.{result_err};
ghost use Rattle.dex_fields.specs.Bytes.{IsWithin};
ghost use Rattle.dex_orders.specs.OrdersAccount.{IsOrders};
ghost use Rattle.dex_orders.specs.Faults.{amount_rule, are_zeros, flags_rule, frame_rule, funds_rule, opened_fault, orders_fault, pair_rule, place_rule, repeat_rule, slots_fault, slots_rule};

use crate::slots::{SLOT_COUNT, hold_one, id_in};
use bitflags::Flags;
use dex_fields::open_orders::{
    ACCOUNT_FLAGS, LAYOUT, NATIVE_COIN_FREE, NATIVE_COIN_TOTAL, NATIVE_PC_FREE, NATIVE_PC_TOTAL,
};
use dex_fields::{Field, frame_difference, get_u64};
use dex_types::{AccountFault, AccountFlags};

/// Whether the bytes are an open-orders account, by the rules that need this account alone; else the first rule that
/// is broken, by its kind and then by its place.
///
/// A blank account is 3,228 zeros. Of any other the rules are, in the order of their kinds: the length is 3,228;
/// `serum` stands at the front and `padding` at the end; the flags are 5, or 256 once it is closed; no free amount is
/// above its total, and no two taken slots hold one id and side. The last kind's place is the amount's offset, or the
/// later slot's number, whose id is reported as found and the lowest slot with the same id and side as wanted; at one
/// place the amount comes first. What free slots hold is not read.
pub fn check_orders(bytes: &[u8]) -> Result<(), AccountFault>
    ensures ok { IsOk result ↔ IsOrders bytes.now }
    ensures fault { result_err result ≡ orders_fault bytes.now }
{
    match orders_fault(bytes) {
        Some(fault) => Err(fault),
        None => Ok(()),
    }
}

#[tactic(auto, unfolding(crate::specs::Faults::orders_fault))]
fn orders_fault(bytes: &[u8]) -> Option<AccountFault>
    ensures { result ≡ orders_fault bytes.now }
{
    if bytes.len() != LAYOUT.size {
        Some(AccountFault::size(bytes.len(), LAYOUT.size))
    } else if are_zeros(bytes) {
        None
    } else {
        opened_fault(bytes)
    }
}

fn are_zeros(bytes: &[u8]) -> bool
    ensures { result ≡ are_zeros bytes.now }
{
    bytes.iter().all(|&byte| byte == 0)
}

#[tactic(auto, unfolding(crate::specs::Faults::opened_fault))]
fn opened_fault(bytes: &[u8]) -> Option<AccountFault>
    requires { length bytes.now ≡ 3228 }
    ensures { result ≡ opened_fault bytes.now }
{
    frame_rule(bytes)
        .or(flags_rule(bytes))
        .or(slots_rule(bytes))
}

fn frame_rule(bytes: &[u8]) -> Option<AccountFault>
    requires { 12 ≤ length bytes.now }
    ensures { result ≡ frame_rule bytes.now }
{
    frame_difference(bytes).map(|d| AccountFault::text(d.place, d.found, d.wanted))
}

fn flags_rule(bytes: &[u8]) -> Option<AccountFault>
    requires { length bytes.now ≡ 3228 }
    ensures { result ≡ flags_rule bytes.now }
{
    let flags = AccountFlags::from_bits_retain(get_u64(bytes, ACCOUNT_FLAGS));
    if flags == AccountFlags::OPEN_ORDERS_ACCOUNT || flags == AccountFlags::CLOSED_ACCOUNT {
        None
    } else {
        Some(AccountFault::flags(flags.bits(), AccountFlags::OPEN_ORDERS_ACCOUNT.0))
    }
}

/// The rules of kind 9, by rising place.
fn slots_rule(bytes: &[u8]) -> Option<AccountFault>
    requires { length bytes.now ≡ 3228 }
    ensures { result ≡ slots_rule bytes.now }
{
    for place in 0..SLOT_COUNT {
        if let Some(fault) = place_rule(bytes, place) {
            return Some(fault);
        }
    }
    None
}

fn place_rule(bytes: &[u8], place: u8) -> Option<AccountFault>
    requires size { length bytes.now ≡ 3228 }
    requires place { place < 128 }
    ensures { result ≡ place_rule bytes.now place }
{
    funds_rule(bytes, place).or(repeat_rule(bytes, place))
}

fn funds_rule(bytes: &[u8], place: u8) -> Option<AccountFault>
    requires { length bytes.now ≡ 3228 }
    ensures { result ≡ funds_rule bytes.now place }
{
    if place as usize == NATIVE_COIN_FREE.at {
        amount_rule(bytes, NATIVE_COIN_FREE, NATIVE_COIN_TOTAL)
    } else if place as usize == NATIVE_PC_FREE.at {
        amount_rule(bytes, NATIVE_PC_FREE, NATIVE_PC_TOTAL)
    } else {
        None
    }
}

fn amount_rule(bytes: &[u8], free: Field, total: Field) -> Option<AccountFault>
    requires free_within { IsWithin free bytes.now }
    requires total_within { IsWithin total bytes.now }
    requires free_wide { free.len ≡ 8 }
    requires total_wide { total.len ≡ 8 }
    requires low { free.at < 2 ^ 32 }
    ensures { result ≡ amount_rule bytes.now free total }
{
    let found = get_u64(bytes, free);
    let wanted = get_u64(bytes, total);
    if found <= wanted {
        None
    } else {
        Some(slots_fault(free.at as u32, u128::from(found), u128::from(wanted)))
    }
}

fn repeat_rule(bytes: &[u8], slot: u8) -> Option<AccountFault>
    requires size { length bytes.now ≡ 3228 }
    requires slot { slot < 128 }
    ensures { result ≡ repeat_rule bytes.now slot }
{
    for lower in 0..slot {
        if let Some(fault) = pair_rule(bytes, slot, lower) {
            return Some(fault);
        }
    }
    None
}

fn pair_rule(bytes: &[u8], slot: u8, lower: u8) -> Option<AccountFault>
    requires size { length bytes.now ≡ 3228 }
    requires slot { slot < 128 }
    requires lower { lower < 128 }
    ensures { result ≡ pair_rule bytes.now slot lower }
{
    if hold_one(bytes, slot, lower) {
        Some(slots_fault(u32::from(slot), id_in(bytes, slot), u128::from(lower)))
    } else {
        None
    }
}

/// Kind 9: a free amount above its total, or a slot whose order a lower slot holds too.
fn slots_fault(place: u32, found: u128, wanted: u128) -> AccountFault
    ensures { result ≡ slots_fault place found wanted }
{
    AccountFault {
        kind: 9,
        place,
        found,
        wanted,
    }
}
