//! A ring of events that goes round its end, and the lowest free slot.

ghost use Rattle.std.specs.Prelude.{◌<◌};
ghost use Rattle.dex_ring.specs.EventBytes.{IsQueued};

use dex_orders::{OrdersRef, OrdersState, check_orders, state_of};
use dex_ring::{RingRef, RingView, check_events};
use dex_types::{Address, Event};
use std::test::Fail;

/// A queue of three events whose first stands at place 2, where one is pending: its flags are 1, its slot is 5.
fn queue() -> [u8; 308] {
    let mut bytes = [0; 308];
    bytes[..5].copy_from_slice(b"serum");
    bytes[5] = 17;
    bytes[13] = 2;
    bytes[21] = 1;
    bytes[213] = 1;
    bytes[214] = 5;
    bytes[301..].copy_from_slice(b"padding");
    bytes
}

/// The fill of a resting bid whose amounts have their own numbers.
fn fill(slot: u8) -> Event
    requires { slot < 128 }
    ensures { IsQueued result }
{
    Event {
        flags: 13,
        slot,
        tier: 6,
        released: 258,
        paid: 3,
        fee_or_rebate: 4,
        id: 1 << 120,
        owner: Address([9; 32]),
        client: 7,
    }
}

#[test]
fn events_go_round_the_end_of_the_ring(rt: HostRuntime) -> Result<(), Fail> {
    let mut bytes = queue();
    check_events(&bytes)?;
    let mut view = RingView { bytes: &mut bytes };
    assert!(rt; view.room() == 2);
    view.push(&fill(127));
    assert!(rt; view.len() == 2);
    assert!(rt; view.at(1) == fill(127));
    let first = view.pop_front();
    assert!(rt; (first.flags, first.slot, view.len(), view.room()) == (1, 5, 1, 2));
    assert!(rt; (bytes[13], bytes[21]) == (0, 1));
    assert!(rt; &bytes[37..48] == [13, 127, 6, 0, 0, 0, 0, 0, 2, 1, 0].as_slice());
    let ring = RingRef { bytes: &bytes };
    assert!(rt; ring.at(0) == fill(127));
    Ok(())
}

/// The lowest free slot of an account whose bits of free slots are these. The order of each slot has the slot's number
/// as its id.
fn lowest_free(bits: [u8; 16]) -> Result<Option<u8>, Fail> {
    let mut bytes = [0; 3228];
    bytes[..5].copy_from_slice(b"serum");
    bytes[5] = 5;
    bytes[3221..].copy_from_slice(b"padding");
    bytes[109..125].copy_from_slice(&bits);
    for slot in 0..128usize {
        bytes[141 + 16 * slot] = slot as u8;
    }
    check_orders(&bytes)?;
    match state_of(&bytes) {
        OrdersState::Open => Ok(OrdersRef { bytes: &bytes }.free_slot()),
        _ => Err(Fail::new("not open")),
    }
}

#[test]
fn the_lowest_free_slot_is_found(rt: HostRuntime) -> Result<(), Fail> {
    let mut bits = [255; 16];
    bits[0] = 252;
    assert!(rt; lowest_free(bits)? == Some(2));
    assert!(rt; lowest_free([0; 16])? == None);
    Ok(())
}
