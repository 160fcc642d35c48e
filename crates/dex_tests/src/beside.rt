//! A market that pays at once is stepped by the accepted rows of a script, and has the worths that the journal tells.

ghost use Rattle.std.specs.Prelude.{◌≡◌, ◌+◌, ◌^◌, ◌<◌, ◌≤◌, IfOk};

use dex_eager_market::EagerMarket;
use dex_replay::replay_with_rows;
use dex_script::{Script, read_script};
use dex_state::Outcome;
use dex_types::{Entry, NoMemory, Program, Reply, Row, Seen};
use dex_worth::{Worth, WorthRow, worth_table};
use std::alloc::Global;
use std::test::Fail;

/// Two traders and a person without an account: asks and bids that fill and rest, a post-only order, an order that
/// takes its own trader's away, takes on both sides, a crank that comes late, a refused row, a settlement, and cancels
/// of each kind.
const SCRIPT: &[u8] = b"mint,coin,6
mint,usd,6
wallet,ann_coin,coin,ann,10000
wallet,ann_usd,usd,ann,90000
wallet,bob_coin,coin,bob,10000
wallet,bob_usd,usd,bob,90000
wallet,cat_coin,coin,cat,10000
wallet,cat_usd,usd,cat,90000
market,m,coin,usd,admin,9,9,40,AAAAAABkAAAAAAAAAAoAAAAAAAAAAAAAAAAAAAAAAAEAAAAAAAAA
orders,m,amy
orders,m,ben
do,0,m,ann,amy,-,-,-,-,init
do,1,m,bob,ben,-,-,-,-,init
do,0,m,ann,amy,ann_coin,-,-,-,new ask 50 4 1 decrement limit 7 10
do,0,m,ann,amy,ann_coin,-,-,-,new ask 55 3 1 decrement post 8 10
do,1,m,bob,ben,-,bob_usd,-,-,new bid 52 3 2000 decrement ioc 8 10
do,1,m,bob,ben,-,bob_usd,-,-,new bid 60 3 90000000 decrement ioc 9 10
do,1,m,bob,ben,-,bob_usd,-,-,new bid 45 6 9000 decrement limit 10 10
do,0,m,ann,amy ben,-,-,-,-,consume 1
do,2,m,cat,-,cat_coin,cat_usd,-,-,take ask 40 2 1 1 1 10
do,0,m,ann,amy,ann_coin,-,-,-,new ask 44 1 1 decrement limit 11 10
do,2,m,cat,-,cat_coin,cat_usd,-,-,take bid 56 2 9000 1 1 10
do,1,m,bob,ben,bob_coin,-,-,-,new ask 45 2 1 cancel limit 12 10
do,0,m,ann,amy,ann_coin,-,-,-,new ask 57 1 1 decrement limit 13 10
do,0,m,ann,amy,ann_coin,-,-,-,new ask 58 1 1 decrement limit 14 10
do,0,m,ann,amy,-,-,-,-,cancelc 8
do,0,m,ann,amy,-,-,-,-,cancel ask 1051464412201444442118
do,1,m,bob,ben,bob_coin,bob_usd,-,-,settle
do,1,m,bob,ben,-,-,-,-,cancels 12 3
do,0,m,admin,amy,-,-,-,-,prune 5
";

/// What each account is worth in the end, as another implementation tells it.
const WORTHS: [Worth; 2] = [
    Worth {
        coin: -600,
        pc: 2999,
    },
    Worth {
        coin: 600,
        pc: -2854,
    },
];

/// What a row sees that names no discount wallet; a market that pays at once looks at nothing else.
const SEEN: Seen = Seen {
    coin: None,
    pc: None,
    discount: None,
    referrer: None,
    srm: None,
    msrm: None,
    program: Program::Serum,
};

// The script as it is read.
fn script(alloc: Global) -> Result<Script, Fail> {
    match read_script(alloc, SCRIPT, false) {
        Ok(script) => Ok(script),
        Err(_) => Err(Fail::new("no script")),
    }
}

/// The first market of a script, as one that pays at once.
fn begin(alloc: Global, script: &Script) -> Result<EagerMarket, NoMemory>
    ensures { IfOk result (λ market. market.steps ≡ 0) }
{
    if script.start.markets.len() == 0 {
        return Err(NoMemory);
    }
    EagerMarket::new(alloc, &script.start.markets[0])
}

/// A script that was played: its rows, what is left, and what each account is then worth.
#[derive(Drop)]
struct Played {
    outcome: Outcome,
    rows: Vec<Row>,
    table: Vec<WorthRow>,
}

fn play(alloc: Global, script: Script) -> Result<Played, NoMemory> {
    let (outcome, rows) = replay_with_rows(alloc, script)?;
    let table = worth_table(alloc, &rows, &outcome)?;
    Ok(Played {
        outcome,
        rows,
        table,
    })
}

fn is_accepted(reply: Reply) -> bool {
    match reply {
        Reply::Refused(_) => false,
        _ => true,
    }
}

// The row of a number.
fn row_with(rows: &[Row], number: u32) -> Option<&Row> {
    rows.iter().find(|row| row.number == number)
}

/// Steps the market by the row of an entry, if it was accepted.
fn step_by(market: &mut EagerMarket, rows: &[Row], entry: &Entry)
    requires { market.old.steps < 2 ^ 32 }
    ensures { market.new.steps ≤ market.old.steps + 1 }
{
    if is_accepted(entry.reply) {
        if let Some(row) = row_with(rows, entry.row) {
            market.step(row, &SEEN);
        }
    }
}

/// Steps the market by the accepted rows of a journal, which are few.
fn step_all(market: &mut EagerMarket, rows: &[Row], entries: &[Entry])
    requires { market.old.steps ≡ 0 }
{
    let count = entries.len().min(1000);
    for place in 0..count {
        step_by(market, rows, &entries[place]);
    }
}

// The market has the worth of each row.
fn agrees(market: &EagerMarket, table: &[WorthRow]) -> bool {
    table
        .iter()
        .all(|row| market.worth(row.account) == Some(row.worth))
}

#[test]
fn worths_are_those_of_the_journal(rt: HostRuntime) -> Result<(), Fail> {
    let alloc = rt.alloc();
    let script = script(alloc)?;
    let mut market = begin(alloc, &script)?;
    let played = play(alloc, script)?;
    assert!(rt; played.table.len() == 2);
    assert!(rt; played.table[0].worth == WORTHS[0]);
    assert!(rt; played.table[1].worth == WORTHS[1]);
    assert!(rt; !agrees(&market, &played.table));
    let Some(journal) = played.outcome.markets.first() else {
        return Err(Fail::new("no market"));
    };
    step_all(&mut market, &played.rows, &journal.entries);
    assert!(rt; agrees(&market, &played.table));
    Ok(())
}
