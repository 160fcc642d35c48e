//! What an audit tells.

ghost use Rattle.std.specs.Prelude.{◌≡◌, ◌++◌, OnOk};
ghost use Rattle.dex_audit_rules.specs.Lists.{unless};

use dex_types::{Address, NoMemory, add};

/// A place where a rule over several accounts fails. `kind` is the number of the rule, from 1 to 13; `place` is a
/// number of an order, of an event or of a slot, or the first byte of an amount, in `account`; `found` and `wanted` are
/// ids, counts, sequence numbers or native amounts, by the rule, and an amount of 2^128 or more counts as 2^128 - 1.
#[derive(Clone, Copy, Debug, PartialEq, Eq)]
pub struct Finding {
    pub kind: u8,
    pub account: Address,
    pub place: u32,
    pub found: u128,
    pub wanted: u128,
}

/// Adds the finding, unless the rule holds.
pub fn tell_unless(found: &mut Vec<Finding>, holds: bool, finding: Finding) -> Result<(), NoMemory>
    ensures { OnOk result (found.new.items ≡ found.old.items ++ unless holds finding) }
{
    if !holds {
        add(found, finding)?;
    }
    Ok(())
}
