//! An event queue, for reading.

ghost use Rattle.std.specs.Prelude.{◌≡◌, ◌+◌, ◌<◌, ◌↔◌, length, IsTrue, slice_index_or};
ghost use Rattle.dex_types.specs.QueuedEvent.{QueuedEvent, encoded_event};
ghost use Rattle.dex_ring.specs.EventBytes.{IsQueued};
ghost use Rattle.dex_ring.specs.Ring.{IsEventQueue, event_at, ring_of};

use crate::places::{capacity, numbered_event};
use dex_fields::event_queue::COUNT;
use dex_fields::get_u64;
use dex_types::Event;

/// An event queue, for reading: its pending events from the front, and how many it can hold.
#[derive(Clone, Copy, Debug)]
pub struct RingRef<'a> {
    pub bytes: &'a [u8],
}

/// The event with this number from the front.
pub(crate) fn event_at(bytes: &[u8], number: u32) -> Event
    requires accepted { IsEventQueue bytes.now }
    requires number { number < length (ring_of bytes.now).events }
    ensures here { result ≡ event_at bytes.now number }
    ensures event { (d : QueuedEvent)
        → result ≡ encoded_event (slice_index_or (ring_of bytes.now).events number d) }
    ensures queued { IsQueued result }
{
    numbered_event(bytes, number as usize)
}

impl RingRef<'_> {
    /// How many events are pending.
    pub fn len(&self) -> u32
        requires { IsEventQueue self.now.bytes.now }
        ensures { result ≡ length (ring_of self.now.bytes.now).events }
    {
        get_u64(self.bytes, COUNT) as u32
    }

    /// Whether no event is pending.
    pub fn is_empty(&self) -> bool
        requires { IsEventQueue self.now.bytes.now }
        ensures { IsTrue result ↔ (length (ring_of self.now.bytes.now).events ≡ 0) }
    {
        self.len() == 0
    }

    /// How many more events fit.
    pub fn room(&self) -> u32
        requires { IsEventQueue self.now.bytes.now }
        ensures { result + length (ring_of self.now.bytes.now).events ≡ (ring_of self.now.bytes.now).capacity }
    {
        capacity(self.bytes) as u32 - self.len()
    }

    /// The event with this number, counted from the front.
    pub fn at(&self, index: u32) -> Event
        requires accepted { IsEventQueue self.now.bytes.now }
        requires index { index < length (ring_of self.now.bytes.now).events }
        ensures event { (d : QueuedEvent) → result
            ≡ encoded_event (slice_index_or (ring_of self.now.bytes.now).events index d) }
        ensures queued { IsQueued result }
    {
        event_at(self.bytes, index)
    }
}
