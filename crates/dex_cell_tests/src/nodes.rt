//! What one row writes of the sides.

use crate::exchange::Exchange;
use std::alloc::Global;
use std::process::Abort;
use std::test::Fail;

/// How many pieces of 72 bytes are not the same, which are as long as a node.
fn pieces_changed(old: &[u8], new: &[u8]) -> usize {
    let mut changed = 0usize;
    for (before, after) in old.chunks(72).zip(new.chunks(72)) {
        if before != after {
            changed = changed.wrapping_add(1);
        }
    }
    changed
}

/// A row is done, and leaves all bid nodes and all but at most three ask nodes as they were.
fn do_by_nodes<A: Abort>(
    rt: &A,
    alloc: Global,
    exchange: &mut Exchange,
    row: &[u8],
) -> Result<(), Fail> {
    let bids = exchange.cell.accounts().bids.clone()?;
    let asks = exchange.cell.accounts().asks.clone()?;
    let line = exchange.run(row)?;
    assert!(rt; line.as_str().contains(" ok "), "{line}");
    let accounts = exchange.cell.accounts();
    assert!(rt; accounts.bids == bids);
    let nodes = (
        asks.get(45..).ok_or("too short")?,
        accounts.asks.get(45..).ok_or("too short")?,
    );
    let changed = pieces_changed(nodes.0, nodes.1);
    assert!(rt; 1 <= changed && changed <= 3, "{changed} nodes");
    Ok(())
}

#[test]
fn a_row_writes_three_nodes_at_most(rt: HostRuntime) -> Result<(), Fail> {
    let mut exchange = Exchange::open(rt.alloc())?;
    exchange.run(b"wallet,ann_coin,coin,ann,2000")?;
    for price in 50..66u64 {
        let row = format!(in rt.alloc();
            "do,0,m,ann,amy,ann_coin,-,-,-,new ask {price} 1 1 decrement limit 7 10"
        )?;
        do_by_nodes(&rt, rt.alloc(), &mut exchange, row.as_bytes())?;
    }
    let cancel = b"do,0,m,ann,amy,-,-,-,-,cancel ask 922337203685477580800";
    do_by_nodes(&rt, rt.alloc(), &mut exchange, cancel)?;
    let ask = b"do,0,m,ann,amy,ann_coin,-,-,-,new ask 70 1 1 decrement limit 7 10";
    do_by_nodes(&rt, rt.alloc(), &mut exchange, ask)
}
