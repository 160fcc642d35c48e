//! The rule of pending events: each is held by its owner's slot, and comes before the end of its order.

ghost use Rattle.std.specs.Prelude.{◌≡◌, ◌==◌, ◌&&◌, ◌<◌, ◌^◌, [], ◌++◌, List, length, map, OnOk};
ghost use Rattle.dex_types.specs.QueuedEvent.{QueuedEvent, decoded_event};
ghost use Rattle.dex_audit_rules.specs.Lists.{numbered};
ghost use Rattle.dex_audit_rules.specs.Slots as rules;
ghost use Rattle.dex_totals.specs.Tallies.{AreFinals};

use crate::finding::{Finding, tell_unless};
use dex_totals::{Counts, Owners, id_held, is_held, side_of};
use dex_types::{Address, Event, NoMemory};
use std::alloc::Global;

/// Whether an event is held, and its order was not ended before it.
fn is_placed(is_held: bool, ended: u32) -> bool
    ensures { result ≡ (is_held && (ended == 0)) }
{
    is_held && ended == 0
}

/// Tells the event with this number, unless its slot holds it and none of the earlier ones, whose final outs are
/// counted, ends its order.
fn tell_event(
    found: &mut Vec<Finding>,
    owners: &Owners<'_>,
    finals: &Counts,
    queue: Address,
    number: u32,
    event: &Event,
) -> Result<(), NoMemory>
    ensures { (earlier : List QueuedEvent) → AreFinals finals.now earlier → OnOk result (found.new.items
        ≡ found.old.items
        ++ rules.astray_behind owners.now earlier queue number (decoded_event event.now)) }
{
    let held = owners.held_at(event.owner, event.slot);
    let side = side_of(event);
    let is_held = is_held(held, event.id, side, event.client);
    let ended = finals.times(event.id, side);
    let placed = is_placed(is_held, ended);
    let finding = Finding {
        kind: 4,
        account: queue,
        place: number,
        found: id_held(held),
        wanted: event.id,
    };
    tell_unless(found, placed, finding)
}

/// Tells each pending event whose owner is no open account with a slot that holds it, or before which a final out of
/// its order is pending.
pub fn tell_astray(
    alloc: Global,
    found: &mut Vec<Finding>,
    owners: &Owners<'_>,
    events: &[Event],
    queue: Address,
) -> Result<(), NoMemory>
    requires { length events.now < 2 ^ 32 }
    ensures { OnOk result (found.new.items
        ≡ found.old.items
        ++ numbered (rules.astray owners.now (map decoded_event events.now) queue) 0
        (map decoded_event events.now)) }
{
    let mut finals = Counts::new(alloc);
    for number in 0..events.len() {
        let event = &events[number];
        tell_event(found, owners, &finals, queue, number as u32, event)?;
        finals.count(event)?;
    }
    Ok(())
}
