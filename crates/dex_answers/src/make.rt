//! The command `make`.

ghost use Rattle.std.specs.Prelude.{IfOk};
ghost use Rattle.dex_report.specs.Made.{made_text};
ghost use Rattle.dex_words.specs.Spelling.{AreMade};
ghost use Rattle.dex_answers.specs.Telling.{IsText};
ghost use Rattle.dex_answers.specs.declared.status.Status.TheVariants as status;

use crate::status::Status;
use crate::told::StatusText;
use dex_report::make_script;
use dex_types::NoMemory;
use std::alloc::Global;

/// The made script of this number with this many drawn rows.
pub fn make_answer(alloc: Global, number: u64, rows: u32) -> Result<StatusText, NoMemory>
    requires { AreMade number rows }
    ensures { IfOk result (λ told. IsText told status.Ok (made_text number rows)) }
{
    let text = make_script(alloc, number, rows)?;
    StatusText::of(alloc, Status::Ok, text)
}
