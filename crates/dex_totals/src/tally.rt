//! How often each number was counted.

ghost use Rattle.std.specs.Prelude.{◌≡◌, ℕ, ◌+◌, ◌-◌, ◌<◌, ◌^◌, ◌==◌, OnOk, IfOk, if◌then◌else◌};
ghost use Rattle.dex_totals.specs.Tallies.{times};

use dex_types::NoMemory;
use std::collections::BTreeMap;

/// How often the number was counted.
pub fn times(tally: &BTreeMap<u128, u32>, number: u128) -> u32
    ensures { result ≡ times tally.now number }
{
    tally.get(&number).copied().unwrap_or(0)
}

/// Counts the number once more.
pub fn count(tally: &mut BTreeMap<u128, u32>, number: u128) -> Result<(), NoMemory>
    requires { times tally.old number < 2 ^ 32 - 1 }
    ensures { OnOk result ((other : ℕ) → times tally.new other
        ≡ times tally.old other + (if other == number then 1 else 0)) }
{
    let more = times(tally, number) + 1;
    tally.insert(number, more)?;
    Ok(())
}

/// Marks the number as met.
pub fn mark(tally: &mut BTreeMap<u128, u32>, number: u128) -> Result<(), NoMemory>
    ensures { OnOk result ((other : ℕ) → times tally.new other
        ≡ (if other == number then 1 else times tally.old other)) }
{
    tally.insert(number, 1)?;
    Ok(())
}
