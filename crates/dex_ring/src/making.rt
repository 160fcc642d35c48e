//! An event queue as it is made.

ghost use Rattle.std.specs.Prelude.{◌≡◌, ◌≤◌, [], length};
ghost use Rattle.dex_ring.specs.Blank.{IsMadeSize, blank_queue, made_size};
ghost use Rattle.dex_ring.specs.Ring.{IsEventQueue, capacity_of, ring_of};

use bitflags::Flags;
use dex_fields::event_queue::LAYOUT;
use dex_fields::{END_TEXT, event, write_empty_account};
use dex_types::AccountFlags;

/// How many bytes a queue that is made for this many events has; for 1 to 65,535 events it can be one.
pub fn made_size(events: u32) -> usize
    ensures size { result ≡ made_size events }
    ensures made { 1 ≤ events → events ≤ 65535 → IsMadeSize result }
{
    LAYOUT.size + event::LAYOUT.size * events as usize + END_TEXT.len()
}

/// Makes the bytes an event queue as it is made, whatever stood there: no event is pending, and none was ever appended.
/// The length must be that of a queue that is made for 1 to 65,535 events, as `made_size` has it.
pub fn blank(bytes: &mut [u8])
    requires { IsMadeSize (length bytes.old) }
    ensures bytes { bytes.new ≡ blank_queue (length bytes.old) }
    ensures accepted { IsEventQueue bytes.new }
    ensures ring { ring_of bytes.new ≡ record { events = []; capacity = capacity_of bytes.old; seq_num = 0 } }
{
    write_empty_account(bytes, AccountFlags::EVENT_QUEUE_ACCOUNT.0);
}
