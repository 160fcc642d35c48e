//! All rows of a script, in their order, on several threads.

ghost use Rattle.std.specs.Prelude.{◌≡◌, ◌≤◌, IfOk, map};
ghost use Rattle.dex_types.specs.Rows.{row_of};
ghost use Rattle.dex_state.specs.Outcomes.{outcome_of};
ghost use Rattle.dex_replay.specs.Replays.{IsReplayOf};
ghost use Rattle.dex_replay.specs.Runs.{IsRunOf};
ghost use Rattle.dex_script_types.specs.Facts.{HasNoSwap};

use crate::windows::{Sizes, work_all};
use dex_bank::Cells;
use dex_io::Pace;
use dex_replay::laws::{a_replay_is_in_one_order, what_one_order_leaves_is_a_run};
use dex_script_types::{RowList, Script};
use dex_state::Outcome;
use dex_types::{NoMemory, Row};
use std::alloc::Global;
use std::marker::{Send, Sync};
use std::thread::Threads;

/// These rows as a list of one piece.
fn in_one_piece(alloc: Global, rows: Vec<Row>) -> Result<RowList, NoMemory>
    ensures { IfOk result (λ list. list ≡ rows.items) }
{
    let mut list = RowList::new(alloc);
    list.push_piece(rows)?;
    Ok(list)
}

/// What is left when all rows of a script have acted in their order, on so many threads, and the rows. Rows that share
/// no market and no wallet may act side by side. The script's accounts themselves go into the outcome: none is copied.
pub fn run_batch_with_rows<R: Threads + Sync, P: Pace + Sync>(
    rt: &R,
    alloc: Global,
    script: Script,
    workers: u32,
    pace: &P,
) -> Result<(Outcome, RowList), NoMemory>
    requires workers { (1 ≤ workers) × (workers ≤ 16) }
    requires rows { HasNoSwap script.rows }
    ensures outcome { IfOk result (λ left. IsReplayOf script (outcome_of left.0)) }
    ensures run { IfOk result (λ left. IsRunOf script (outcome_of left.0)) }
    ensures rows { IfOk result (λ left. map row_of left.1 ≡ script.rows) }
{
    a_replay_is_in_one_order();
    what_one_order_leaves_is_a_run();
    let sizes = Sizes {
        markets: script.start.markets.len(),
        wallets: script.start.wallets.len(),
    };
    let (cells, rows, places) = Cells::of_script(alloc, script)?;
    let rows = rows.into_rows(alloc)?;
    let left = work_all(
        rt,
        alloc,
        cells,
        sizes,
        &rows,
        &places,
        workers as usize,
        pace,
    )?;
    match left.close(alloc) {
        Ok(outcome) => Ok((outcome, in_one_piece(alloc, rows)?)),
        Err(_) => Err(NoMemory),
    }
}

/// Runs a batch and answers the outcome alone.
pub fn run_batch<R: Threads + Sync, P: Pace + Sync>(
    rt: &R,
    alloc: Global,
    script: Script,
    workers: u32,
    pace: &P,
) -> Result<Outcome, NoMemory>
    requires workers { (1 ≤ workers) × (workers ≤ 16) }
    requires rows { HasNoSwap script.rows }
    ensures outcome { IfOk result (λ outcome. IsReplayOf script (outcome_of outcome)) }
    ensures run { IfOk result (λ outcome. IsRunOf script (outcome_of outcome)) }
{
    let (outcome, _) = run_batch_with_rows(rt, alloc, script, workers, pace)?;
    Ok(outcome)
}
