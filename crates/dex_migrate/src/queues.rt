//! An event queue with room for another number of events.

ghost use Rattle.std.specs.Prelude.{◌≡◌, ◌≤◌, [], length, IfOk};
ghost use Rattle.dex_fields.specs.Bytes.{with_number};
ghost use Rattle.dex_fields.specs.declared.event_queue.TheConstants.{SEQ_NUM};
ghost use Rattle.dex_ring.specs.Appended.{pushed_all};
ghost use Rattle.dex_ring.specs.Blank.{blank_queue, made_size};
ghost use Rattle.dex_ring.specs.Ring.{IsEventQueue, events_of, ring_of};
ghost use Rattle.dex_migrate.specs.Migrated.{IsQueueOf};

use dex_fields::event_queue::SEQ_NUM;
use dex_fields::get_u64;
use dex_make::zeros;
use dex_ring::{RingRef, RingView, blank, made_size};
use dex_types::NoMemory;
use std::alloc::Global;

/// Appends the events of a queue to an empty one.
fn copy_events(from: &RingRef<'_>, to: &mut RingView<'_>)
    requires from { IsEventQueue from.now.bytes.now }
    requires to { IsEventQueue to.old.bytes.now }
    requires empty { events_of to.old.bytes.now ≡ [] }
    requires fits { length (events_of from.now.bytes.now) ≤ (ring_of to.old.bytes.now).capacity }
    ensures bytes { to.new.bytes.now ≡ pushed_all (events_of from.now.bytes.now) to.old.bytes.now }
    ensures events { events_of to.new.bytes.now ≡ events_of from.now.bytes.now }
    ensures capacity { (ring_of to.new.bytes.now).capacity ≡ (ring_of to.old.bytes.now).capacity }
    ensures accepted { IsEventQueue to.new.bytes.now }
    ensures place { to.new.bytes.ghost_name ≡ to.old.bytes.ghost_name }
{
    'events: for index in 0..from.len() {
        let event = from.at(index);
        to.push(&event);
    }
}

/// Makes the bytes an event queue with these events.
fn fill_queue(bytes: &mut [u8], old: &[u8], events: u32)
    requires old { IsEventQueue old.now }
    requires some { 1 ≤ events }
    requires few { events ≤ 65535 }
    requires fits { length (events_of old.now) ≤ events }
    requires size { length bytes.old ≡ made_size events }
    ensures { IsQueueOf events old.now bytes.new }
{
    blank(bytes);
    copy_bytes(old, bytes);
}

/// Like `fill_queue`, on a queue that is empty.
fn copy_bytes(old: &[u8], bytes: &mut [u8])
    requires old { IsEventQueue old.now }
    requires to { IsEventQueue bytes.old }
    requires empty { events_of bytes.old ≡ [] }
    requires fits { length (events_of old.now) ≤ (ring_of bytes.old).capacity }
    ensures bytes { bytes.new
        ≡ with_number (pushed_all (events_of old.now) bytes.old) SEQ_NUM (ring_of old.now).seq_num }
    ensures ring { ring_of bytes.new ≡ record (ring_of old.now) { capacity = (ring_of bytes.old).capacity } }
    ensures accepted { IsEventQueue bytes.new }
{
    let mut queue = RingView { bytes };
    copy_events(&RingRef { bytes: old }, &mut queue);
    queue.set_seq_num(get_u64(old, SEQ_NUM));
}

/// An event queue with room for this many events and those of this one, which fit.
pub fn migrate_queue(alloc: Global, old: &[u8], events: u32) -> Result<Vec<u8>, NoMemory>
    requires old { IsEventQueue old.now }
    requires some { 1 ≤ events }
    requires few { events ≤ 65535 }
    requires fits { length (events_of old.now) ≤ events }
    ensures { IfOk result (λ bytes. IsQueueOf events old.now bytes.items) }
{
    let mut bytes = zeros(alloc, made_size(events))?;
    fill_queue(&mut bytes, old, events);
    Ok(bytes)
}
