//! The lines of a script or a dump that is refused, each with its status.

ghost use Rattle.std.specs.Prelude.{◌≡◌, ℕ, IfOk};
ghost use Rattle.dex_refusal_lines.specs.Lines as lines;
ghost use Rattle.dex_answers.specs.Telling.{IsText};
ghost use Rattle.dex_answers.specs.declared.status.Status.TheVariants as status;

use crate::status::Status;
use crate::told::StatusText;
use dex_audit::Finding;
use dex_dump::DumpFault;
use dex_refusal_lines::{ScriptRefused, audit_failed_text, dump_refused_text, script_refused_text};
use dex_types::NoMemory;
use std::alloc::Global;

/// Names the first faulty row of a script.
pub(crate) fn script_refused(alloc: Global, fault: ScriptRefused) -> Result<StatusText, NoMemory>
    ensures { IfOk result (λ told. IsText told status.ScriptRefused (lines.script_refused fault)) }
{
    let text = script_refused_text(alloc, fault)?;
    StatusText::of(alloc, Status::ScriptRefused, text.into_bytes())
}

/// Names the first faulty row of a dump.
pub(crate) fn dump_refused(alloc: Global, fault: DumpFault) -> Result<StatusText, NoMemory>
    ensures { IfOk result (λ told. IsText told status.DumpRefused (lines.dump_refused fault)) }
{
    let text = dump_refused_text(alloc, fault)?;
    StatusText::of(alloc, Status::DumpRefused, text.into_bytes())
}

/// Tells the findings of an audit.
pub(crate) fn audit_failed(alloc: Global, found: &[Finding]) -> Result<StatusText, NoMemory>
    ensures { IfOk result (λ told. IsText told status.AuditFailed (lines.audit_failed found.now)) }
{
    let text = audit_failed_text(alloc, found)?;
    StatusText::of(alloc, Status::AuditFailed, text.into_bytes())
}
