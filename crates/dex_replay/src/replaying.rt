//! A script's items act one after the other.

ghost use Rattle.std.specs.Prelude.{◌≡◌, IfOk, map};
ghost use Rattle.dex_types.specs.Rows.{row_of};
ghost use Rattle.dex_state.specs.Outcomes.{outcome_of};
ghost use Rattle.dex_replay.specs.Replays.{IsReplayOf};
ghost use Rattle.dex_replay.specs.Runs.{IsRunOf};

use crate::acting::act_all;
use dex_bank::Cells;
use dex_script_types::Script;
use dex_state::Outcome;
use dex_types::{NoMemory, Row};
use std::alloc::Global;

/// What is left when all rows of a script have acted in their order: the accounts, and the journal of each market and
/// each wallet; and the rows. The script's accounts themselves go into the outcome: none is copied.
pub fn replay_with_rows(alloc: Global, script: Script) -> Result<(Outcome, Vec<Row>), NoMemory>
    ensures outcome { IfOk result (λ left. IsReplayOf script (outcome_of left.0)) }
    ensures run { IfOk result (λ left. IsRunOf script (outcome_of left.0)) }
    ensures rows { IfOk result (λ left. map row_of left.1.items ≡ script.rows) }
{
    let (cells, rows, places) = Cells::of_script(alloc, script)?;
    let rows = rows.into_rows(alloc)?;
    let cells = act_all(cells, &rows, &places);
    match cells.close(alloc) {
        Ok(outcome) => Ok((outcome, rows)),
        Err(_) => Err(NoMemory),
    }
}

/// Like `replay_with_rows`, without the rows.
pub fn replay(alloc: Global, script: Script) -> Result<Outcome, NoMemory>
    ensures outcome { IfOk result (λ outcome. IsReplayOf script (outcome_of outcome)) }
    ensures run { IfOk result (λ outcome. IsRunOf script (outcome_of outcome)) }
{
    let (outcome, _) = replay_with_rows(alloc, script)?;
    Ok(outcome)
}
