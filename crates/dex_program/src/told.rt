//! The report that a command on several threads answers.

ghost use Rattle.std.specs.Prelude.{IfOk};
ghost use Rattle.dex_state.specs.Outcomes.{outcome_of};
ghost use Rattle.dex_report.specs.Report.{report_text};
ghost use Rattle.dex_report.specs.Telling.{FitOutcome};
ghost use Rattle.dex_answers.specs.Telling.{IsText};
ghost use Rattle.dex_answers.specs.declared.status.Status.TheVariants as status;

use dex_answers::{Status, StatusText};
use dex_report::report_pieces;
use dex_script_types::RowList;
use dex_state::Outcome;
use dex_types::NoMemory;
use std::alloc::Global;
use std::marker::Sync;
use std::thread::Threads;

/// The report of an outcome of this many items, made side by side. The outcome is given up, and its rows. All values
/// that it tells fit.
pub(crate) fn report_of<R: Threads + Sync>(
    rt: &R,
    alloc: Global,
    outcome: Outcome,
    items: u32,
    rows: RowList,
) -> Result<StatusText, NoMemory>
    ensures fits { IfOk result (λ told. FitOutcome (outcome_of outcome)) }
    ensures text { IfOk result (λ told. IsText told status.Ok (report_text (outcome_of outcome) items)) }
{
    let pieces = report_pieces(rt, alloc, outcome, items, rows.into_pieces())?;
    Ok(StatusText {
        status: Status::Ok,
        pieces,
    })
}
