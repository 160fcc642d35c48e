//! An event queue, for reading and for writing in place.

ghost use Rattle.std.specs.Prelude.{◌≡◌, ◌+◌, ◌<◌, ◌↔◌, ◌++◌, [], ◌∷◌, length, drop, IsTrue, slice_index_or};
ghost use Rattle.dex_types.specs.Market.{events_counted};
ghost use Rattle.dex_types.specs.QueuedEvent.{QueuedEvent, decoded_event, encoded_event};
ghost use Rattle.dex_ring.specs.EventBytes.{IsQueued};
ghost use Rattle.dex_fields.specs.Bytes.{with_number};
ghost use Rattle.dex_fields.specs.declared.event_queue.TheConstants.{SEQ_NUM};
ghost use Rattle.dex_ring.specs.Ring.{IsEventQueue, popped, pushed, ring_of};

use crate::places::{place, write_event};
use crate::ring_ref::{RingRef, event_at};
use dex_fields::event_queue::{COUNT, HEAD, SEQ_NUM};
use dex_fields::{get_u64, put_u64};
use dex_types::Event;

/// An event queue, for reading and for writing in place.
#[derive(Debug, Drop)]
pub struct RingView<'a> {
    pub bytes: &'a mut [u8],
}

impl RingView<'_> {
    /// The queue, for reading.
    fn as_ref(&self) -> RingRef<'_>
        ensures { result.bytes.now ≡ self.now.bytes.now }
    {
        RingRef { bytes: self.bytes }
    }

    /// How many events are pending.
    pub fn len(&self) -> u32
        requires { IsEventQueue self.now.bytes.now }
        ensures { result ≡ length (ring_of self.now.bytes.now).events }
    {
        self.as_ref().len()
    }

    /// Whether no event is pending.
    pub fn is_empty(&self) -> bool
        requires { IsEventQueue self.now.bytes.now }
        ensures { IsTrue result ↔ (length (ring_of self.now.bytes.now).events ≡ 0) }
    {
        self.as_ref().is_empty()
    }

    /// How many more events fit.
    pub fn room(&self) -> u32
        requires { IsEventQueue self.now.bytes.now }
        ensures { result + length (ring_of self.now.bytes.now).events ≡ (ring_of self.now.bytes.now).capacity }
    {
        self.as_ref().room()
    }

    /// The event with this number, counted from the front.
    pub fn at(&self, index: u32) -> Event
        requires accepted { IsEventQueue self.now.bytes.now }
        requires index { index < length (ring_of self.now.bytes.now).events }
        ensures event { (d : QueuedEvent) → result
            ≡ encoded_event (slice_index_or (ring_of self.now.bytes.now).events index d) }
        ensures queued { IsQueued result }
    {
        self.as_ref().at(index)
    }

    /// Appends an event after the last one. It writes the event's own bytes, the count and the count of all events ever
    /// appended, which begins again at 0 after 2^64 - 1; all other bytes stay.
    pub fn push(&mut self, event: &Event)
        requires accepted { IsEventQueue self.old.bytes.now }
        requires room { length (ring_of self.old.bytes.now).events < (ring_of self.old.bytes.now).capacity }
        requires queued { IsQueued event.now }
        ensures place { self.new.bytes.ghost_name ≡ self.old.bytes.ghost_name }
        ensures bytes { self.new.bytes.now ≡ pushed self.old.bytes.now event.now }
        ensures list { ring_of self.new.bytes.now ≡ record (ring_of self.old.bytes.now) {
          events = (ring_of self.old.bytes.now).events ++ decoded_event event.now ∷ [];
          seq_num = events_counted (ring_of self.old.bytes.now).seq_num 1;
        } }
        ensures accepted { IsEventQueue self.new.bytes.now }
    {
        let bytes = &mut *self.bytes;
        let count = get_u64(bytes, COUNT);
        let appended = get_u64(bytes, SEQ_NUM);
        let place = place(bytes, count as usize);
        write_event(bytes, place, event);
        put_u64(bytes, COUNT, count + 1);
        put_u64(bytes, SEQ_NUM, appended.wrapping_add(1));
    }

    /// Sets how many events were ever appended, modulo 2^64. It writes that word; all other bytes stay.
    pub fn set_seq_num(&mut self, value: u64)
        requires { IsEventQueue self.old.bytes.now }
        ensures place { self.new.bytes.ghost_name ≡ self.old.bytes.ghost_name }
        ensures bytes { self.new.bytes.now ≡ with_number self.old.bytes.now SEQ_NUM value }
        ensures list { ring_of self.new.bytes.now ≡ record (ring_of self.old.bytes.now) { seq_num = value } }
        ensures accepted { IsEventQueue self.new.bytes.now }
    {
        put_u64(self.bytes, SEQ_NUM, value);
    }

    /// Takes the first event. It writes the head and the count; all other bytes stay, the event's own among them.
    pub fn pop_front(&mut self) -> Event
        requires accepted { IsEventQueue self.old.bytes.now }
        requires pending { 0 < length (ring_of self.old.bytes.now).events }
        ensures place { self.new.bytes.ghost_name ≡ self.old.bytes.ghost_name }
        ensures bytes { self.new.bytes.now ≡ popped self.old.bytes.now }
        ensures event { (ring_of self.old.bytes.now).events
            ≡ decoded_event result ∷ (ring_of self.new.bytes.now).events }
        ensures list { ring_of self.new.bytes.now ≡ record (ring_of self.old.bytes.now) {
          events = drop 1 (ring_of self.old.bytes.now).events;
        } }
        ensures queued { IsQueued result }
        ensures accepted { IsEventQueue self.new.bytes.now }
    {
        let bytes = &mut *self.bytes;
        let event = event_at(bytes, 0);
        let count = get_u64(bytes, COUNT);
        let next = place(bytes, 1) as u64;
        put_u64(bytes, HEAD, next);
        put_u64(bytes, COUNT, count - 1);
        event
    }
}
