//! The command `audit`.

ghost use Rattle.std.specs.Prelude.{IfOk, length};
ghost use Rattle.dex_types.specs.Limits.{AreLimits};
ghost use Rattle.dex_refusal_lines.specs.Lines as lines;
ghost use Rattle.dex_answers.specs.Telling.{IsText};
ghost use Rattle.dex_answers.specs.Told.{text_of};
ghost use Rattle.dex_answers.specs.declared.status.Status.TheVariants as status;
ghost use Rattle.dex_answers.specs.Answers.{AnswersWithin};
ghost use Rattle.dex_words.specs.declared.command.Command.TheVariants.{Audit};

use crate::clean::{Checked, check_dump};
use crate::status::Status;
use crate::told::StatusText;
use dex_refusal_lines::audit_ok_text;
use dex_types::{Accounts, Limits, NoMemory};
use std::alloc::Global;

/// Tells that the accounts of a dump have no findings, or their findings, or the first faulty row of the dump within
/// these limits.
pub fn audit_answer(alloc: Global, bytes: &[u8], limits: &Limits) -> Result<StatusText, NoMemory>
    requires { AreLimits limits.now }
    ensures { IfOk result (λ told. AnswersWithin limits.now Audit bytes.now told.status (text_of told)) }
{
    match check_dump(alloc, bytes, limits)? {
        Checked::Clean(accounts) => audit_ok(alloc, &accounts),
        Checked::Refused(told) => Ok(told),
    }
}

/// Tells how many markets and wallets have no findings.
fn audit_ok(alloc: Global, accounts: &Accounts) -> Result<StatusText, NoMemory>
    ensures { let counted = lines.audit_ok (length accounts.now.markets.items) (length accounts.now.wallets.items) in
        IfOk result (λ told. IsText told status.Ok counted) }
{
    let text = audit_ok_text(alloc, accounts.markets.len(), accounts.wallets.len())?;
    StatusText::of(alloc, Status::Ok, text.into_bytes())
}
