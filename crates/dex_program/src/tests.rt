//! The whole program over memory: its words, a source and a sink that cannot fail.

use crate::program::dex_main;
use dex_answers::Status;
use dex_io::{NoPace, Pace, SureSink, SureSource};
use std::alloc::Global;
use std::marker::Sync;
use std::sync::Wait;
use std::sync::atomic::{AtomicU64, Ordering};
use std::test::Fail;
use std::thread;
use std::thread::Threads;

/// Room for each report here.
const ROOM: usize = 40_000;

/// A bid rests, and another of the same account is refused.
const ONE_LANE: &[u8] = b"mint,coin,6
mint,usd,6
wallet,bob_usd,usd,bob,500
market,m,coin,usd,admin,5,5,8,AAAAAABkAAAAAAAAAAoAAAAAAAAAAAAAAAAAAAAAAAEAAAAAAAAA
orders,m,ben
do,0,m,bob,ben,-,-,-,-,init
do,0,m,bob,ben,-,bob_usd,-,-,new bid 40 1 400 decrement limit 7 10
do,0,m,bob,ben,-,bob_usd,-,-,new bid 60 1 600 decrement limit 8 10
";

/// How its report begins, up to the dump of the last accounts.
const FRONT: &[u8] = b"report 3
market m 3
entry 0 6 ok done
entry 0 7 ok order 756316507022091616255 0 0 0 0 1 bob_usd debit 400 500
entry 0 8 refused 22 InsufficientFunds 600 100 bob_usd probe 0 100
wallet bob_usd 2
move m 0 7 debit 400 500
move m 0 8 probe 0 100
dump
mint,coin,";

/// How long it is.
const SIZE: usize = 14_989;

// Runs the words of a line on an input that is told.
fn run<R: Threads + Wait + Sync, P: Pace + Sync>(
    rt: &R,
    alloc: Global,
    line: &str,
    script: &[u8],
    pace: &P,
) -> Result<(Status, SureSink), Fail> {
    let mut words = Vec::new(alloc);
    for word in line.split(' ') {
        words.push(String::from_str(alloc, word)?)?;
    }
    let mut source = SureSource::new(script.to_vec(alloc)?);
    let mut sink = SureSink::with_room(alloc, ROOM)?;
    let status = dex_main(rt, alloc, &words, &mut source, &mut sink, pace);
    Ok((status, sink))
}

#[test]
fn a_report_is_written_whole(rt: HostRuntime) -> Result<(), Fail> {
    for line in ["replay", "run", "batch 3"] {
        let (status, sink) = run(&rt, rt.alloc(), line, ONE_LANE, &NoPace)?;
        assert!(rt; status == Status::Ok);
        let text = sink.bytes();
        assert!(rt; text.len() == SIZE);
        assert!(rt; text.starts_with(FRONT));
        assert!(rt; text.ends_with(b"\nenddump\nend\n"));
    }
    Ok(())
}

/// Two markets and two wallets, each with a trader and a lane of its own: rows that share nothing.
const APART: &[u8] = b"mint,coin,6
mint,usd,6
wallet,ann_coin,coin,ann,1000
wallet,bob_coin,coin,bob,1000
market,m,coin,usd,admin,5,5,8,AAAAAABkAAAAAAAAAAoAAAAAAAAAAAAAAAAAAAAAAAEAAAAAAAAA
market,n,coin,usd,admin,5,5,8,AAAAAABkAAAAAAAAAAoAAAAAAAAAAAAAAAAAAAAAAAEAAAAAAAAA
orders,m,amy
orders,n,ben
do,0,m,ann,amy,ann_coin,-,-,-,init
do,1,n,bob,ben,bob_coin,-,-,-,init
";

/// How often a row yields before it gives up.
const MOST_YIELDS: u32 = 1_000_000;

// Holds each row, with the turns of its market and its wallet, until another is inside, or until it gives up.
#[derive(Drop)]
struct Meets {
    inside: AtomicU64,
    met: AtomicU64,
}

impl Pace for Meets {
    fn inside(&self, _lane: u32, _row: u32) {
        self.inside.fetch_add(1, Ordering::SeqCst);
        for _ in 0..MOST_YIELDS {
            if self.inside.load(Ordering::SeqCst) == 2 {
                self.met.fetch_add(1, Ordering::SeqCst);
                return;
            }
            thread::yield_now();
        }
    }
}

#[test]
fn rows_that_share_nothing_meet(rt: HostRuntime) -> Result<(), Fail> {
    let (_, replayed) = run(&rt, rt.alloc(), "replay", APART, &NoPace)?;
    for line in ["run", "batch 2"] {
        let pace = Meets {
            inside: AtomicU64::new(0),
            met: AtomicU64::new(0),
        };
        let (status, sink) = run(&rt, rt.alloc(), line, APART, &pace)?;
        assert!(rt; status == Status::Ok);
        assert!(rt; pace.met.into_inner() == 2);

        // They share nothing, so they leave what a replay leaves.
        assert!(rt; sink.bytes() == replayed.bytes());
    }
    Ok(())
}

/// Two lanes on one market, and then on two that share a wallet: rows that cannot be inside at once.
const TOGETHER: [&[u8]; 2] = [
    b"mint,coin,6
mint,usd,6
market,m,coin,usd,admin,5,5,8,AAAAAABkAAAAAAAAAAoAAAAAAAAAAAAAAAAAAAAAAAEAAAAAAAAA
do,0,m,ann,-,-,-,-,-,settle
do,1,m,bob,-,-,-,-,-,settle
do,0,m,ann,-,-,-,-,-,settle
do,1,m,bob,-,-,-,-,-,settle
",
    b"mint,coin,6
mint,usd,6
wallet,shared,usd,cat,5
market,m,coin,usd,admin,5,5,8,AAAAAABkAAAAAAAAAAoAAAAAAAAAAAAAAAAAAAAAAAEAAAAAAAAA
market,n,coin,usd,admin,5,5,8,AAAAAABkAAAAAAAAAAoAAAAAAAAAAAAAAAAAAAAAAAEAAAAAAAAA
do,0,m,ann,-,-,-,-,shared,settle
do,1,n,bob,-,-,-,-,shared,settle
do,0,m,ann,-,-,-,-,shared,settle
do,1,n,bob,-,-,-,-,shared,settle
",
];

/// How often a row yields while it is inside.
const SHORT: u32 = 1_000;

// Stays inside for a while, and counts the rows, and those that met another inside.
#[derive(Drop)]
struct Counts {
    entered: AtomicU64,
    left: AtomicU64,
    met: AtomicU64,
}

impl Pace for Counts {
    fn inside(&self, _lane: u32, _row: u32) {
        if self.entered.fetch_add(1, Ordering::SeqCst) != self.left.load(Ordering::SeqCst) {
            self.met.fetch_add(1, Ordering::SeqCst);
        }
        for _ in 0..SHORT {
            thread::yield_now();
        }
        self.left.fetch_add(1, Ordering::SeqCst);
    }
}

// How many were inside, and how many of them met another there.
fn counted<R: Threads + Wait + Sync>(
    rt: &R,
    alloc: Global,
    line: &str,
    script: &[u8],
) -> Result<(u64, u64), Fail> {
    let pace = Counts {
        entered: AtomicU64::new(0),
        left: AtomicU64::new(0),
        met: AtomicU64::new(0),
    };
    let (status, _) = run(rt, alloc, line, script, &pace)?;
    if status != Status::Ok {
        return Err(Fail::new("no report"));
    }
    Ok((pace.left.into_inner(), pace.met.into_inner()))
}

#[test]
fn rows_that_share_are_inside_one_at_a_time(rt: HostRuntime) -> Result<(), Fail> {
    for script in TOGETHER {
        for line in ["run", "batch 4"] {
            assert!(rt; counted(&rt, rt.alloc(), line, script)? == (4, 0));
        }
    }
    Ok(())
}

/// Swaps of a lane over two markets, and of another lane over the same two in the other order, with a row of it on
/// each: of two lanes no two can be inside at once.
const SWAPS: &[u8] = b"mint,coin,6
mint,usd,6
market,m,coin,usd,admin,5,5,8,AAAAAABkAAAAAAAAAAoAAAAAAAAAAAAAAAAAAAAAAAEAAAAAAAAA
market,n,coin,usd,admin,5,5,8,AAAAAABkAAAAAAAAAAoAAAAAAAAAAAAAAAAAAAAAAAEAAAAAAAAA
swap,0,ann,m,-,-,AAAAAA==,n,-,-,AAAAAA==
do,1,m,bob,-,-,-,-,-,settle
swap,0,ann,m,-,-,AAAAAA==,n,-,-,AAAAAA==
swap,1,bob,n,-,-,AAAAAA==,m,-,-,AAAAAA==
do,1,n,bob,-,-,-,-,-,settle
";

// A swap is inside once, under the turns of both its markets.
#[test]
fn a_swap_is_inside_once_with_both_its_markets(rt: HostRuntime) -> Result<(), Fail> {
    assert!(rt; counted(&rt, rt.alloc(), "run", SWAPS)? == (5, 0));
    Ok(())
}
