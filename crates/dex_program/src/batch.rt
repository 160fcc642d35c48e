//! What `batch` answers to the bytes that it read: the report of what a script's rows leave in their order.

ghost use Rattle.std.specs.Prelude.{◌≤◌, IfOk};
ghost use Rattle.dex_commands.specs.LaneAnswers.{AnswersBatch};
ghost use Rattle.dex_answers.specs.Told.{text_of};

use crate::told::report_of;
use dex_answers::{StatusText, no_script};
use dex_batch::run_batch_with_rows;
use dex_io::Pace;
use dex_replay::laws::without_swaps_rows_act_one_by_one;
use dex_script_pieces::read_script;
use dex_types::NoMemory;
use std::alloc::Global;
use std::marker::Sync;
use std::sync::Wait;
use std::thread::Threads;

/// The report of what is left when the rows of a script have acted in their order on so many threads, or why the bytes
/// are no script for batches: what `replay` answers, but that a swap is refused. Each row is let in by the pace.
pub fn batch_answer<R: Threads + Wait + Sync, P: Pace + Sync>(
    rt: &R,
    alloc: Global,
    bytes: &[u8],
    workers: u32,
    pace: &P,
) -> Result<StatusText, NoMemory>
    requires { (1 ≤ workers) × (workers ≤ 16) }
    ensures { IfOk result (λ told. AnswersBatch bytes.now told.status (text_of told)) }
{
    match read_script(rt, alloc, bytes, true, workers as usize) {
        Ok(script) => {
            // What the script's type keeps of its rows, for the proof.
            let _ = &script.rows;
            let items = script.items();
            let (outcome, rows) = run_batch_with_rows(rt, alloc, script, workers, pace)?;
            without_swaps_rows_act_one_by_one();
            report_of(rt, alloc, outcome, items, rows)
        }
        Err(error) => no_script(alloc, error),
    }
}
