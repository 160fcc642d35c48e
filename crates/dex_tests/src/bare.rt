//! A row by itself, without the places of its market and wallets, acts on the cells of a script.

ghost use Rattle.dex_bank.specs.Opened.{opened};
ghost use Rattle.dex_script_types.specs.Facts.{IsScript};
ghost use Rattle.dex_script_types.specs.PlainScript.{PlainScript};
ghost use Rattle.dex_types.specs.Rows.{row_of};
ghost use Rattle.std.specs.Prelude.{◌≡◌, map};

use dex_bank::Cells;
use dex_replay::replay;
use dex_script::{Script, read_script};
use dex_state::Outcome;
use dex_types::{Reply, Row};
use std::alloc::Global;
use std::test::Fail;

/// One row, on the second market and on the last two wallets. The book is empty, and the take asks for nothing.
const SCRIPT: &[u8] = b"mint,coin,6
mint,usd,6
wallet,ann_coin,coin,ann,10000
wallet,ann_usd,usd,ann,90000
wallet,cat_usd,usd,cat,70000
wallet,cat_coin,coin,cat,80000
market,k,coin,usd,admin,9,9,8,AAAAAABkAAAAAAAAAAoAAAAAAAAAAAAAAAAAAAAAAAEAAAAAAAAA
market,m,coin,usd,admin,9,9,8,AAAAAABkAAAAAAAAAAoAAAAAAAAAAAAAAAAAAAAAAAEAAAAAAAAA
do,2,m,cat,-,cat_coin,cat_usd,-,-,take bid 56 2 9000 0 0 10
";

// The script as it is read.
fn script(alloc: Global) -> Result<Script, Fail> {
    match read_script(alloc, SCRIPT, false) {
        Ok(script) => Ok(script),
        Err(_) => Err(Fail::new("no script")),
    }
}

/// The only row of a script acts by itself on the cells with which the script starts.
fn act_first(cells: &mut Cells, rows: &[Row]) -> Option<Reply>
    requires { (script : PlainScript) × IsScript script × (cells.old ≡ opened script)
        × (map row_of rows.now ≡ script.rows) }
{
    let (row, others) = rows.split_first()?;
    if others.len() != 0 {
        return None;
    }
    Some(cells.step(row))
}

// All cells as they are, when the only row has acted by itself; and its reply.
fn left(alloc: Global) -> Result<(Outcome, Option<Reply>), Fail> {
    let (mut cells, rows, _) = Cells::of_script(alloc, script(alloc)?)?;
    let rows = rows.into_rows(alloc)?;
    let reply = act_first(&mut cells, &rows);
    match cells.close(alloc) {
        Ok(outcome) => Ok((outcome, reply)),
        Err(_) => Err(Fail::new("no memory")),
    }
}

// How many entries each wallet's journal has, as digits.
fn entries(outcome: &Outcome) -> u64 {
    let mut digits = 0u64;
    for wallet in &outcome.wallets {
        digits = digits
            .wrapping_mul(10)
            .wrapping_add(wallet.entries.len() as u64);
    }
    digits
}

#[test]
fn a_row_by_itself_is_looked_up(rt: HostRuntime) -> Result<(), Fail> {
    let (outcome, reply) = left(rt.alloc())?;
    let nothing = Reply::Took {
        lots: 0,
        pc: 0,
        fee: 0,
    };
    assert!(rt; reply == Some(nothing));
    assert!(rt; entries(&outcome) == 11);
    let replayed = replay(rt.alloc(), script(rt.alloc())?)?;
    for (one, other) in outcome.markets.iter().zip(replayed.markets.iter()) {
        assert!(rt; one.entries == other.entries);
    }
    for (one, other) in outcome.wallets.iter().zip(replayed.wallets.iter()) {
        assert!(rt; one.entries == other.entries);
    }
    Ok(())
}
