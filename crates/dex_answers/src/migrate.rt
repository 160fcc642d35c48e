//! The command `migrate`.

ghost use Rattle.std.specs.Prelude.{◌≤◌, IfOk};
ghost use Rattle.dex_dump.specs.DumpText.{dump_text};
ghost use Rattle.dex_refusal_lines.specs.Lines as lines;
ghost use Rattle.dex_types.specs.Limits.{AreLimits};
ghost use Rattle.dex_types.specs.Accounts.{accounts_of};
ghost use Rattle.dex_words.specs.declared.command.Command.TheVariants.{Migrate};
ghost use Rattle.dex_answers.specs.Answers.{AnswersWithin};
ghost use Rattle.dex_answers.specs.Telling.{IsText};
ghost use Rattle.dex_answers.specs.Told.{text_of};
ghost use Rattle.dex_answers.specs.declared.status.Status.TheVariants as status;

use crate::clean::{Checked, check_dump};
use crate::dump::dump_of;
use crate::status::Status;
use crate::told::StatusText;
use dex_migrate::{MigrateError, MigrateFault, migrate};
use dex_refusal_lines::migrate_refused_text;
use dex_types::{Limits, NoMemory};
use std::alloc::Global;

/// The dump of the accounts with sides of this many nodes and event queues for this many events; or what would not fit;
/// or the findings of the accounts, or the first faulty row of the dump.
#[tactic(auto, using(dex_state::proofs::TheLimits::widened))]
pub fn migrate_answer(
    alloc: Global,
    bytes: &[u8],
    nodes: u32,
    events: u32,
    limits: &Limits,
) -> Result<StatusText, NoMemory>
    requires limits { AreLimits limits.now }
    requires nodes { (1 ≤ nodes) × (nodes ≤ 65536) }
    requires events { (1 ≤ events) × (events ≤ 65535) }
    ensures { IfOk result
        (λ told. AnswersWithin limits.now (Migrate nodes events) bytes.now told.status (text_of told)) }
{
    let accounts = match check_dump(alloc, bytes, limits)? {
        Checked::Clean(accounts) => accounts,
        Checked::Refused(told) => return Ok(told),
    };
    match migrate(alloc, accounts, nodes, events) {
        Ok(migrated) => dump_of(alloc, migrated),
        Err(MigrateError::TooSmall(fault)) => migrate_refused(alloc, fault),
        Err(MigrateError::NoMemory) => Err(NoMemory),
    }
}

/// Names what would not fit.
fn migrate_refused(alloc: Global, fault: MigrateFault) -> Result<StatusText, NoMemory>
    ensures { IfOk result (λ told. IsText told status.MigrateRefused (lines.migrate_refused fault)) }
{
    let text = migrate_refused_text(alloc, fault)?;
    StatusText::of(alloc, Status::MigrateRefused, text.into_bytes())
}
