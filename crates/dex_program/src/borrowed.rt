//! Calls that the program does not make: those that only borrow a script come to what those come to that take it, `run`
//! and `run_batch` give what is left without the rows, and `bulk_text` sums up an outcome as `bulk` sums up its counts.

use dex_bank::Cells;
use dex_batch::run_batch;
use dex_io::NoPace;
use dex_replay::replay;
use dex_report::{bulk_text, make_script, report_text};
use dex_run::{build, close, run};
use dex_script::{Script, read_script};
use dex_state::Outcome;
use std::alloc::Global;
use std::test::Fail;

/// Two traders, one on each of two lanes, with three rows.
const SCRIPT: &[u8] = b"mint,coin,6
mint,usd,6
wallet,ann_coin,coin,ann,1000
market,m,coin,usd,admin,5,5,8,AAAAAABkAAAAAAAAAAoAAAAAAAAAAAAAAAAAAAAAAAEAAAAAAAAA
orders,m,amy
orders,m,ben
do,0,m,ann,amy,-,-,-,-,init
do,1,m,bob,ben,-,-,-,-,init
do,0,m,ann,amy,ann_coin,-,-,-,new ask 50 4 1 decrement limit 7 10
";

// The script as it is read.
fn script(alloc: Global) -> Result<Script, Fail> {
    match read_script(alloc, SCRIPT, false) {
        Ok(script) => Ok(script),
        Err(_) => Err(Fail::new("no script")),
    }
}

// What the cells of the script leave when no row has acted.
fn left(alloc: Global, cells: Cells) -> Result<Outcome, Fail> {
    match cells.close(alloc) {
        Ok(outcome) => Ok(outcome),
        Err(_) => Err(Fail::new("no memory")),
    }
}

// The report of what is left when the script's own accounts went into the cells, by the call that only borrows it.
fn wanted(alloc: Global, script: Script) -> Result<Vec<u8>, Fail> {
    let (cells, rows, _) = Cells::of_script(alloc, script)?;
    if rows.len() != 3 {
        return Err(Fail::new("not three rows"));
    }
    Ok(report_text(alloc, &left(alloc, cells)?, 0)?)
}

#[test]
fn cells_are_opened(rt: HostRuntime) -> Result<(), Fail> {
    let alloc = rt.alloc();
    let script = script(alloc)?;
    let outcome = left(alloc, Cells::open(alloc, &script)?)?;
    assert!(rt; report_text(alloc, &outcome, 0)? == wanted(alloc, script)?);
    Ok(())
}

#[test]
fn a_bank_is_built(rt: HostRuntime) -> Result<(), Fail> {
    let alloc = rt.alloc();
    let script = script(alloc)?;
    let (bank, seats) = build(alloc, &script)?;
    assert!(rt; seats.len() == 2);
    let Ok(outcome) = close(alloc, bank, seats) else {
        return Err(Fail::new("no memory"));
    };
    assert!(rt; report_text(alloc, &outcome, 0)? == wanted(alloc, script)?);
    Ok(())
}

#[test]
fn lanes_run_and_give_no_rows(rt: HostRuntime) -> Result<(), Fail> {
    let alloc = rt.alloc();
    let outcome = run(&rt, alloc, script(alloc)?, &NoPace)?;
    let text = report_text(alloc, &outcome, 3)?;
    assert!(rt; text.starts_with(b"report 3\nmarket m 3\n"));
    Ok(())
}

#[test]
fn a_batch_runs_and_gives_no_rows(rt: HostRuntime) -> Result<(), Fail> {
    let alloc = rt.alloc();
    let Ok(script) = read_script(alloc, SCRIPT, true) else {
        return Err(Fail::new("no script"));
    };
    let outcome = run_batch(&rt, alloc, script, 2, &NoPace)?;
    let text = report_text(alloc, &outcome, 3)?;
    assert!(rt; text.starts_with(b"report 3\nmarket m 3\n"));
    Ok(())
}

// What `bulk 1 1` prints.
const SUMMARY: &[u8] = b"bulk 1 1
accepted 17
refused 0
market m0 bids 0 asks 0 events 0 coin 0 pc 0 fees 0
market m1 bids 0 asks 0 events 0 coin 0 pc 0 fees 0
";

#[test]
fn an_outcome_is_summed_up(rt: HostRuntime) -> Result<(), Fail> {
    let alloc = rt.alloc();
    let made = make_script(alloc, 1, 1)?;
    let Ok(script) = read_script(alloc, &made, false) else {
        return Err(Fail::new("no script"));
    };
    let outcome = replay(alloc, script)?;
    let text = bulk_text(alloc, 1, 1, &outcome)?;
    assert!(rt; text.as_slice() == SUMMARY);
    Ok(())
}
