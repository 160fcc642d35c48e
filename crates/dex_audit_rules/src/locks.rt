//! The rule of locks, and amounts that 64 bits do not hold.

ghost use Rattle.std.specs.Prelude.{◌≡◌, ℕ, ◌++◌, ◌<◌, ◌^◌, length, OnOk};
ghost use Rattle.dex_totals.specs.Sums.{capped};
ghost use Rattle.dex_audit_rules.specs.Funds as rules;
ghost use Rattle.dex_audit_rules.specs.Lists.{numbered};

use crate::finding::{Finding, tell_unless};
use dex_totals::lock_of;
use dex_types::{Address, Lots, NoMemory, Order, Side};

/// One more than the greatest amount that 64 bits hold.
const BOUND: u128 = 1 << 64;

/// Tells an amount of 2^64 or more.
pub fn tell_exceeds(
    found: &mut Vec<Finding>,
    kind: u8,
    account: Address,
    place: u32,
    amount: u128,
) -> Result<(), NoMemory>
    ensures { (exact : ℕ) → amount ≡ capped exact → OnOk result (found.new.items ≡ found.old.items
        ++ rules.exceeds kind account place exact) }
{
    let finding = Finding {
        kind,
        account,
        place,
        found: amount,
        wanted: u128::from(u64::MAX),
    };
    tell_unless(found, amount < BOUND, finding)
}

/// Tells each order of a side that locks 2^64 or more.
pub fn tell_too_large(
    found: &mut Vec<Finding>,
    orders: &[Order],
    side: Side,
    sizes: Lots,
    account: Address,
) -> Result<(), NoMemory>
    requires { length orders.now < 2 ^ 32 }
    ensures { OnOk result (found.new.items ≡ found.old.items
        ++ numbered (rules.too_large side sizes account) 0 orders.now) }
{
    for place in 0..orders.len() {
        let amount = lock_of(side, sizes, &orders[place]);
        tell_exceeds(found, 13, account, place as u32, amount)?;
    }
    Ok(())
}
