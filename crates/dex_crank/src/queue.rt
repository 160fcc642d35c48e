//! The front of the event queue.

ghost use Rattle.std.specs.Prelude.{◌≡◌, ◌<◌, ◌∷◌, length, drop};
ghost use Rattle.dex_types.specs.QueuedEvent.{decoded_event};
ghost use Rattle.dex_ring.specs.Ring.{IsEventQueue, events_of, popped, ring_of};
ghost use Rattle.dex_crank.specs.PaidBytes.{goes_on};

use crate::addresses::is_named;
use dex_ring::{RingRef, RingView};
use dex_types::{Address, Event};

/// Whether an event is pending and its owner is named.
pub fn goes_on(bytes: &[u8], named: &[Address]) -> bool
    requires { IsEventQueue bytes.now }
    ensures { result ≡ goes_on named.now (events_of bytes.now) }
{
    let ring = RingRef { bytes };
    if ring.is_empty() {
        return false;
    }
    is_named(ring.at(0).owner, named)
}

/// Takes the first event off the queue.
pub fn take_first(bytes: &mut [u8]) -> Event
    requires accepted { IsEventQueue bytes.old }
    requires pending { 0 < length (events_of bytes.old) }
    ensures bytes { bytes.new ≡ popped bytes.old }
    ensures event { events_of bytes.old ≡ decoded_event result ∷ events_of bytes.new }
    ensures ring { ring_of bytes.new ≡ record (ring_of bytes.old) { events = drop 1 (ring_of bytes.old).events } }
    ensures accepted { IsEventQueue bytes.new }
{
    RingView { bytes }.pop_front()
}
