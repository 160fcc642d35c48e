//! What `run` answers to the bytes that it read: the report of what a script's lanes leave side by side.

ghost use Rattle.std.specs.Prelude.{IfOk};
ghost use Rattle.dex_commands.specs.LaneAnswers.{AnswersRun};
ghost use Rattle.dex_answers.specs.Told.{text_of};

use crate::told::report_of;
use dex_answers::{StatusText, no_script};
use dex_io::Pace;
use dex_lanes::processors;
use dex_replay::laws::without_swaps_rows_act_one_by_one;
use dex_run::run_with_rows;
use dex_script_pieces::read_script;
use dex_types::NoMemory;
use std::alloc::Global;
use std::marker::Sync;
use std::sync::Wait;
use std::thread::Threads;

/// The report of what is left when the lanes of a script have run side by side, or why the bytes are no script. Each
/// row is let in by the pace.
pub fn run_answer<R: Threads + Wait + Sync, P: Pace + Sync>(
    rt: &R,
    alloc: Global,
    bytes: &[u8],
    pace: &P,
) -> Result<StatusText, NoMemory>
    ensures { IfOk result (λ told. AnswersRun bytes.now told.status (text_of told)) }
{
    match read_script(rt, alloc, bytes, false, processors(rt)) {
        Ok(script) => {
            // What the script's type keeps of its rows, for the proof.
            let _ = &script.rows;
            let items = script.items();
            let (outcome, rows) = run_with_rows(rt, alloc, script, pace)?;
            without_swaps_rows_act_one_by_one();
            report_of(rt, alloc, outcome, items, rows)
        }
        Err(error) => no_script(alloc, error),
    }
}
