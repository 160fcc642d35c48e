//! The rule of resting orders: each is an open account's.

ghost use Rattle.std.specs.Prelude.{◌≡◌, ◌<◌, ◌++◌, ◌^◌, length, OnOk};
ghost use Rattle.dex_audit_rules.specs.Lists.{numbered};
ghost use Rattle.dex_audit_rules.specs.Slots as rules;

use crate::finding::{Finding, tell_unless};
use dex_totals::Owners;
use dex_types::{Address, NoMemory, Order};

/// Tells each order of a side whose owner is no open account.
pub fn tell_homeless(
    found: &mut Vec<Finding>,
    owners: &Owners<'_>,
    side: Address,
    orders: &[Order],
) -> Result<(), NoMemory>
    requires { length orders.now < 2 ^ 32 }
    ensures { OnOk result (found.new.items ≡ found.old.items
        ++ numbered (rules.homeless owners.now side) 0 orders.now) }
{
    for place in 0..orders.len() {
        let order = orders[place];
        let finding = Finding {
            kind: 1,
            account: side,
            place: place as u32,
            found: 0,
            wanted: order.id,
        };
        tell_unless(found, owners.is_open(order.owner), finding)?;
    }
    Ok(())
}
