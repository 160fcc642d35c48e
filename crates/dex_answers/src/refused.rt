//! Why bytes are no script.

ghost use Rattle.std.specs.Prelude.{ℕ, Bool, List, IfOk};
ghost use Rattle.dex_types.specs.declared.limits.Limits.{Limits};
ghost use Rattle.dex_script.specs.Telling.{TellsError};
ghost use Rattle.dex_answers.specs.Answers.{IsNoScript};
ghost use Rattle.dex_answers.specs.Told.{text_of};

use crate::lines::{audit_failed, dump_refused, script_refused};
use crate::told::StatusText;
use dex_refusal_lines::ScriptRefused;
use dex_script::ScriptError;
use dex_types::NoMemory;
use std::alloc::Global;

/// The text that tells why bytes are no script.
pub fn no_script(alloc: Global, error: ScriptError) -> Result<StatusText, NoMemory>
    ensures { (limits : Limits) (batch : Bool) (bytes : List ℕ) → TellsError limits error batch bytes
        → IfOk result (λ told. IsNoScript limits batch bytes told.status (text_of told)) }
{
    match error {
        ScriptError::Row { row, kind, code } => {
            script_refused(alloc, ScriptRefused { row, kind, code })
        }
        ScriptError::Dump(fault) => dump_refused(alloc, fault),
        ScriptError::Audit(found) => audit_failed(alloc, &found),
        ScriptError::NoMemory => Err(NoMemory),
    }
}
