//! Where the events of a queue stand.

ghost use Rattle.std.specs.Prelude.{◌≡◌, ◌-◌, ◌<◌, ◌≤◌, length};
ghost use Rattle.dex_fields.specs.Bytes.{bytes_in, end_of, number_in, with_bytes};
ghost use Rattle.dex_ring.specs.EventBytes.{event_bytes, event_of};
ghost use Rattle.dex_ring.specs.Ring.{capacity_of, event_at, event_field, place_of};

use crate::event_bytes::{get_event, put_event};
use dex_fields::event::LAYOUT as EVENT;
use dex_fields::event_queue::{HEAD, LAYOUT as HEADER};
use dex_fields::{END_TEXT, get_u64};
use dex_types::Event;

/// How many events fit after the header.
pub fn capacity(bytes: &[u8]) -> usize
    requires { 44 ≤ length bytes.now }
    ensures { result ≡ capacity_of bytes.now }
{
    (bytes.len() - HEADER.size - END_TEXT.len()) / EVENT.size
}

/// The place in the ring of the event with this number from the front.
pub fn place(bytes: &[u8], number: usize) -> usize
    requires size { 132 ≤ length bytes.now }
    requires head { number_in bytes.now HEAD < capacity_of bytes.now }
    requires number { number ≤ capacity_of bytes.now }
    ensures place { result ≡ place_of (capacity_of bytes.now) (number_in bytes.now HEAD) number }
    ensures inside { end_of (event_field result) ≤ length bytes.now - 7 }
{
    let capacity = capacity(bytes);
    (get_u64(bytes, HEAD) as usize + number) % capacity
}

/// The event with this number from the front.
#[tactic(auto, unfolding(crate::specs::Ring::event_at))]
pub fn numbered_event(bytes: &[u8], number: usize) -> Event
    requires size { 132 ≤ length bytes.now }
    requires head { number_in bytes.now HEAD < capacity_of bytes.now }
    requires number { number ≤ capacity_of bytes.now }
    ensures { result ≡ event_at bytes.now number }
{
    event_in(bytes, place(bytes, number))
}

fn event_in(bytes: &[u8], place: usize) -> Event
    requires { end_of (event_field place) ≤ length bytes.now }
    ensures { result ≡ event_of (bytes_in bytes.now (event_field place)) }
{
    let start = HEADER.size + place * EVENT.size;
    get_event(&bytes[start..start + EVENT.size])
}

/// Writes the event at a place of the ring; all other bytes stay.
pub fn write_event(bytes: &mut [u8], place: usize, event: &Event)
    requires { end_of (event_field place) ≤ length bytes.old }
    ensures bytes { bytes.new ≡ with_bytes bytes.old (event_field place) (event_bytes event.now) }
    ensures read { event_of (event_bytes event.now) ≡ event.now }
    ensures size { length (event_bytes event.now) ≡ 88 }
{
    let start = HEADER.size + place * EVENT.size;
    put_event(&mut bytes[start..start + EVENT.size], event);
}
