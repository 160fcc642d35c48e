//! Accounts of a dump that have no findings.

ghost use Rattle.std.specs.Prelude.{IfOk};
ghost use Rattle.dex_types.specs.Limits.{AreLimits};
ghost use Rattle.dex_answers.specs.Telling.{TellsChecked};

use crate::lines::{audit_failed, dump_refused};
use crate::told::StatusText;
use dex_audit::audit;
use dex_dump::{DumpError, read_dump_within};
use dex_types::{Accounts, Limits, NoMemory};
use std::alloc::Global;

/// What a dump is found to be.
#[derive(Drop)]
pub(crate) enum Checked {
    /// The dump of these accounts, which have no findings.
    Clean(Accounts),
    /// None, or one with findings: the text that tells it.
    Refused(StatusText),
}

/// Reads a dump within these limits, and audits its accounts.
#[tactic(auto, using(dex_state::proofs::TheLimits::widened))]
pub(crate) fn check_dump(alloc: Global, bytes: &[u8], limits: &Limits) -> Result<Checked, NoMemory>
    requires { AreLimits limits.now }
    ensures { IfOk result (λ checked. TellsChecked limits.now checked bytes.now) }
{
    let accounts = match read_dump_within(alloc, bytes, limits) {
        Ok(accounts) => accounts,
        Err(DumpError::Refused(fault)) => return Ok(Checked::Refused(dump_refused(alloc, fault)?)),
        Err(DumpError::NoMemory) => return Err(NoMemory),
    };
    let found = audit(alloc, &accounts)?;
    if found.is_empty() {
        Ok(Checked::Clean(accounts))
    } else {
        Ok(Checked::Refused(audit_failed(alloc, &found)?))
    }
}
