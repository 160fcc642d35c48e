//! All lanes of a script at once.

ghost use Rattle.std.specs.Prelude.{◌≡◌, ◌<◌, ◌≤◌, [], All, IfOk, map, vec_capacity, vec_len};
ghost use Rattle.std.specs.List.{AllZip};
ghost use Rattle.dex_types.specs.Rows.{row_of};
ghost use Rattle.dex_state.specs.Outcomes.{outcome_of};
ghost use Rattle.dex_replay.specs.Runs.{IsOneOrder, IsRunOf};
ghost use Rattle.dex_run.specs.Running.{CanRun, HasRun, IsJobOf};

use crate::building::bank_over;
use crate::closing::close;
use crate::index::places_by_lane;
use crate::lane::{LaneJob, Lanes};
use crate::stay::doors_for;
use dex_bank::Cells;
use dex_io::Pace;
use dex_lanes::run_jobs;
use dex_script_types::{RowList, Script};
use dex_state::Outcome;
use dex_turns::{LaneSeat, Outline};
use dex_types::{NoMemory, add};
use std::alloc::Global;
use std::marker::Sync;
use std::sync::Wait;
use std::thread::Threads;

/// A job for each seat.
fn jobs_of<'a, R: Wait, P: Pace>(
    rt: &'a R,
    alloc: Global,
    lanes: Lanes<'a>,
    seats: Vec<LaneSeat>,
    pace: &'a P,
) -> Result<Vec<LaneJob<'a, R, P>>, NoMemory>
    ensures { IfOk result (λ jobs. AllZip (IsJobOf lanes.entry) seats.items jobs.items) }
{
    let mut jobs = Vec::new(alloc);
    for seat in seats {
        let job = LaneJob {
            rt,
            lanes,
            seat,
            pace,
        };
        add(&mut jobs, job)?;
    }
    Ok(jobs)
}

/// The seats of jobs, written into the room for them.
fn seats_back<'a, R: Wait, P: Pace>(
    jobs: Vec<LaneJob<'a, R, P>>,
    mut seats: Vec<LaneSeat>,
) -> Vec<LaneSeat>
    requires { (seats.items ≡ []) × (vec_len jobs ≤ vec_capacity seats) }
    ensures { result.items ≡ map (λ job. job.seat) jobs.entry.items }
{
    for job in jobs {
        let LaneJob { seat, .. } = job;
        seats.push_reserved(seat);
    }
    seats
}

/// All lanes act side by side, and these are their seats.
fn run_all<R: Threads + Wait + Sync, P: Pace + Sync>(
    rt: &R,
    alloc: Global,
    lanes: Lanes<'_>,
    seats: Vec<LaneSeat>,
    pace: &P,
) -> Result<Vec<LaneSeat>, NoMemory>
    requires { All (CanRun lanes) seats.items }
    ensures { IfOk result (λ after. AllZip (HasRun lanes.entry.bank.now) seats.items after.items) }
{
    let room = Vec::with_capacity(alloc, seats.len())?;
    let mut jobs = jobs_of(rt, alloc, lanes, seats, pace)?;
    run_jobs(rt, &mut jobs);
    Ok(seats_back(jobs, room))
}

/// Lets the lanes of a script act side by side, each on a thread of its own where one can be made, and gives what is
/// left, and the rows. The script's accounts themselves go into the outcome: none is copied.
pub fn run_with_rows<R: Threads + Wait + Sync, P: Pace + Sync>(
    rt: &R,
    alloc: Global,
    script: Script,
    pace: &P,
) -> Result<(Outcome, RowList), NoMemory>
    ensures run { IfOk result (λ left. IsRunOf script (outcome_of left.0)) }
    ensures one_order { IfOk result (λ left. IsOneOrder script (outcome_of left.0)) }
    ensures rows { IfOk result (λ left. map row_of left.1 ≡ script.rows) }
{
    let outline = Outline::of(alloc, &script)?;
    let (cells, rows, places) = Cells::of_script(alloc, script)?;
    let by_lane = places_by_lane(alloc, outline.lanes(), &rows, &places)?;
    let (bank, seats) = bank_over(alloc, outline, cells)?;
    let (markets, _) = bank.counts();
    let doors = doors_for(alloc, markets)?;
    let lanes = Lanes {
        bank: &bank,
        doors: &doors,
        rows: &rows,
        places: &places,
        by_lane: &by_lane,
    };
    let seats = run_all(rt, alloc, lanes, seats, pace)?;
    match close(alloc, bank, seats) {
        Ok(outcome) => Ok((outcome, rows)),
        Err(_) => Err(NoMemory),
    }
}

/// Lets the lanes of a script act side by side, and gives what is left without the rows.
pub fn run<R: Threads + Wait + Sync, P: Pace + Sync>(
    rt: &R,
    alloc: Global,
    script: Script,
    pace: &P,
) -> Result<Outcome, NoMemory>
    ensures run { IfOk result (λ outcome. IsRunOf script (outcome_of outcome)) }
    ensures one_order { IfOk result (λ outcome. IsOneOrder script (outcome_of outcome)) }
{
    let (outcome, _) = run_with_rows(rt, alloc, script, pace)?;
    Ok(outcome)
}
