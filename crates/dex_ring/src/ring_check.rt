//! The check of an event queue, by the rules that need that account alone.

ghost use Rattle.std.specs.Prelude.{◌≡◌, ◌^◌, ◌<◌, ◌≤◌, ◌↔◌, length, IsNone, IsOk};
ghost use Rattle.std.specs.Result.{result_err};
ghost use Rattle.dex_fields.specs.Bytes.{number_in};
ghost use Rattle.dex_ring.specs.Ring.{IsEventQueue, capacity_of};
ghost use Rattle.dex_ring.specs.Faults.{count_rule, event_fault, event_rule, events_rule, flags_rule, frame_rule, head_rule, header_rule, queue_fault, ring_fault, size_rule};

use crate::event_bytes::are_event_flags;
use crate::places::{capacity, numbered_event};
use bitflags::Flags;
use dex_fields::event_queue::{ACCOUNT_FLAGS, COUNT, HEAD};
use dex_fields::{Field, frame_difference, get_u64};
use dex_types::{AccountFault, AccountFlags, Event};

/// The least length of an event queue: its header, one event and the seven bytes at its end.
const LEAST: usize = 132;

/// The greatest length: one byte more would be room for 65,536 events.
const MOST: usize = 5_767_211;

/// Whether the bytes are an event queue, by the rules that need this account alone; else the first rule that is
/// broken, by its kind and then by its place.
///
/// In the order of their kinds the rules are: there is room for 1 to 65,535 events; `serum` stands at the front and
/// `padding` at the end; the flags are 17; the head is below the capacity and the count at most the capacity; each
/// event in use has the flags of a kind, a slot below 128 and a tier below 7. The last kind's place is the event's
/// number from the front. Events that are not in use and bytes that fill no event are not read.
pub fn check_events(bytes: &[u8]) -> Result<(), AccountFault>
    ensures ok { IsOk result ↔ IsEventQueue bytes.now }
    ensures fault { result_err result ≡ queue_fault bytes.now }
{
    match queue_fault(bytes) {
        Some(fault) => Err(fault),
        None => Ok(()),
    }
}

#[tactic(auto, unfolding(crate::specs::Faults::queue_fault))]
fn queue_fault(bytes: &[u8]) -> Option<AccountFault>
    ensures { result ≡ queue_fault bytes.now }
{
    if let Some(fault) = size_rule(bytes) {
        return Some(fault);
    }
    if let Some(fault) = header_rule(bytes) {
        return Some(fault);
    }
    events_rule(bytes)
}

fn size_rule(bytes: &[u8]) -> Option<AccountFault>
    ensures rule { result ≡ size_rule bytes.now }
    ensures none { IsNone result ↔ ((132 ≤ length bytes.now) × (length bytes.now ≤ 5767211)) }
{
    let size = bytes.len();
    if size < LEAST {
        Some(AccountFault::size(size, LEAST))
    } else if MOST < size {
        Some(AccountFault::size(size, MOST))
    } else {
        None
    }
}

#[tactic(auto, unfolding(crate::specs::Faults::header_rule))]
fn header_rule(bytes: &[u8]) -> Option<AccountFault>
    requires least { 132 ≤ length bytes.now }
    requires most { length bytes.now ≤ 5767211 }
    ensures rule { result ≡ header_rule bytes.now }
    ensures head { IsNone result → number_in bytes.now HEAD < capacity_of bytes.now }
    ensures count { IsNone result → number_in bytes.now COUNT ≤ capacity_of bytes.now }
{
    frame_rule(bytes)
        .or(flags_rule(bytes))
        .or(head_rule(bytes))
        .or(count_rule(bytes))
}

fn frame_rule(bytes: &[u8]) -> Option<AccountFault>
    requires { 12 ≤ length bytes.now }
    ensures { result ≡ frame_rule bytes.now }
{
    frame_difference(bytes).map(|d| AccountFault::text(d.place, d.found, d.wanted))
}

fn flags_rule(bytes: &[u8]) -> Option<AccountFault>
    requires { 44 ≤ length bytes.now }
    ensures { result ≡ flags_rule bytes.now }
{
    let flags = AccountFlags::from_bits_retain(get_u64(bytes, ACCOUNT_FLAGS));
    if flags == AccountFlags::EVENT_QUEUE_ACCOUNT {
        None
    } else {
        Some(AccountFault::flags(flags.bits(), AccountFlags::EVENT_QUEUE_ACCOUNT.0))
    }
}

/// Kind 7: the head or the count, against the capacity.
fn ring_fault(field: Field, found: u64, capacity: usize) -> AccountFault
    requires { field.at < 2 ^ 32 }
    ensures { result ≡ ring_fault field.at found capacity }
{
    AccountFault {
        kind: 7,
        place: field.at as u32,
        found: u128::from(found),
        wanted: capacity as u128,
    }
}

fn head_rule(bytes: &[u8]) -> Option<AccountFault>
    requires { 44 ≤ length bytes.now }
    ensures { result ≡ head_rule bytes.now }
{
    let head = get_u64(bytes, HEAD);
    let capacity = capacity(bytes);
    if head < capacity as u64 {
        None
    } else {
        Some(ring_fault(HEAD, head, capacity))
    }
}

fn count_rule(bytes: &[u8]) -> Option<AccountFault>
    requires { 44 ≤ length bytes.now }
    ensures { result ≡ count_rule bytes.now }
{
    let count = get_u64(bytes, COUNT);
    let capacity = capacity(bytes);
    if count <= capacity as u64 {
        None
    } else {
        Some(ring_fault(COUNT, count, capacity))
    }
}

fn events_rule(bytes: &[u8]) -> Option<AccountFault>
    requires least { 132 ≤ length bytes.now }
    requires most { length bytes.now ≤ 5767211 }
    requires head { number_in bytes.now HEAD < capacity_of bytes.now }
    requires count { number_in bytes.now COUNT ≤ capacity_of bytes.now }
    ensures { result ≡ events_rule bytes.now }
{
    let count = get_u64(bytes, COUNT) as u32;
    for number in 0..count {
        let event = numbered_event(bytes, number as usize);
        if let Some(fault) = event_rule(number, &event) {
            return Some(fault);
        }
    }
    None
}

fn event_rule(number: u32, event: &Event) -> Option<AccountFault>
    ensures { result ≡ event_rule number event.now }
{
    if !are_event_flags(event.flags) {
        Some(event_fault(number, event.flags))
    } else if event.slot >= 128 {
        Some(event_fault(number, event.slot))
    } else if event.tier >= 7 {
        Some(event_fault(number, event.tier))
    } else {
        None
    }
}

/// Kind 8: a byte of the event with this number from the front.
fn event_fault(number: u32, found: u8) -> AccountFault
    ensures { result ≡ event_fault number found }
{
    AccountFault {
        kind: 8,
        place: number,
        found: u128::from(found),
        wanted: 0,
    }
}
