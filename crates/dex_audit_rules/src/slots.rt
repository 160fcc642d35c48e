//! The rules of taken slots: each order rests or is ended once, and its number was given out, once.

ghost use Rattle.std.specs.Prelude.{◌≡◌, ℕ, ◌+◌, ◌++◌, ◌==◌, ◌<◌, ◌^◌, length, not, take, List, OnOk};
ghost use Rattle.std.specs.List.{flat_map};
ghost use Rattle.dex_types.specs.declared.orders.Order.{Order};
ghost use Rattle.dex_types.specs.QueuedEvent.{QueuedEvent};
ghost use Rattle.dex_types.specs.Side.{by_side};
ghost use Rattle.dex_types.specs.Soundness.{counts_order};
ghost use Rattle.dex_types.specs.Totals.{total};
ghost use Rattle.dex_audit_rules.specs.Lists.{numbered};
ghost use Rattle.dex_audit_rules.specs.Slots as rules;
ghost use Rattle.dex_audit_rules.specs.Slots.{holding};
ghost use Rattle.dex_totals.specs.Tallies as tallies;
ghost use Rattle.dex_totals.specs.Tallies.{AreFinals, AreResting};

use crate::finding::{Finding, tell_unless};
use crate::taken::{Taken, number_of};
use dex_totals::{Counts, mark, times};
use dex_types::NoMemory;
use std::alloc::Global;
use std::collections::BTreeMap;

/// How many resting orders and final outs are the slot's order.
fn count_ends(resting: &Counts, finals: &Counts, taken: &Taken) -> u64
    ensures { (bids asks : List Order) (events : List QueuedEvent) → AreResting resting.now bids asks
        → AreFinals finals.now events
        → result ≡ rules.ends_of bids asks events taken.now }
{
    let rests = resting.times(taken.id, taken.side);
    let ended = finals.times(taken.id, taken.side);
    u64::from(rests) + u64::from(ended)
}

/// Tells each taken slot whose order neither rests without a final out, nor is gone with exactly one.
pub fn tell_unpaired(
    found: &mut Vec<Finding>,
    resting: &Counts,
    finals: &Counts,
    taken: &[Taken],
) -> Result<(), NoMemory>
    ensures { (bids asks : List Order) (events : List QueuedEvent) → AreResting resting.now bids asks
        → AreFinals finals.now events
        → OnOk result (found.new.items ≡ found.old.items ++ flat_map (rules.unpaired bids asks events) taken.now) }
{
    for place in 0..taken.len() {
        let here = taken[place];
        let ends = count_ends(resting, finals, &here);
        let finding = Finding {
            kind: 3,
            account: here.owner,
            place: u32::from(here.slot),
            found: u128::from(ends),
            wanted: 1,
        };
        tell_unless(found, ends == 1, finding)?;
    }
    Ok(())
}

/// Tells each taken slot whose order has a sequence number that was not given out.
pub fn tell_ungiven(found: &mut Vec<Finding>, next: u64, taken: &[Taken]) -> Result<(), NoMemory>
    ensures { OnOk result (found.new.items ≡ found.old.items ++ flat_map (rules.ungiven next) taken.now) }
{
    for place in 0..taken.len() {
        let here = taken[place];
        let number = number_of(&here);
        let finding = Finding {
            kind: 5,
            account: here.owner,
            place: u32::from(here.slot),
            found: u128::from(number),
            wanted: u128::from(next),
        };
        tell_unless(found, number < next, finding)?;
    }
    Ok(())
}

/// Whether no slot had the number so far.
fn is_fresh(met: &BTreeMap<u128, u32>, number: u64) -> bool
    ensures { result ≡ (tallies.times met.now number == 0) }
{
    times(met, u128::from(number)) == 0
}

/// Tells each taken slot whose order has the sequence number of an earlier one.
pub fn tell_repeated(
    alloc: Global,
    found: &mut Vec<Finding>,
    taken: &[Taken],
) -> Result<(), NoMemory>
    ensures { OnOk result (found.new.items ≡ found.old.items ++ numbered (rules.repeated taken.now) 0 taken.now) }
{
    let mut met = BTreeMap::new(alloc);
    for place in 0..taken.len() {
        let here = taken[place];
        let number = number_of(&here);
        let finding = Finding {
            kind: 6,
            account: here.owner,
            place: u32::from(here.slot),
            found: 2,
            wanted: 1,
        };
        tell_unless(found, is_fresh(&met, number), finding)?;
        mark(&mut met, u128::from(number))?;
    }
    Ok(())
}
