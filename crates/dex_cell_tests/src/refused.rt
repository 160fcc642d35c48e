//! A row that no script can come to, since a mint's supply has no more than 64 bits: a wallet that is full.

use crate::exchange::Exchange;
use std::alloc::Global;
use std::test::Fail;

/// An ask is cancelled, so that `amy` has 100 of free base, and the wallet is full.
const ROWS: &[u8] = b"do,0,m,ann,amy,ann_coin,-,-,-,new ask 50 1 1 decrement limit 7 10
do,0,m,ann,amy,-,-,-,-,cancelc 7
do,0,m,ann,amy,-,-,-,-,consume 1
wallet,ann_coin,coin,ann,18446744073709551615
";

/// An exchange after the rows.
fn opened(alloc: Global) -> Result<Exchange, Fail> {
    let mut exchange = Exchange::open(alloc)?;
    exchange.run(ROWS)?;
    Ok(exchange)
}

#[test]
fn a_full_wallet_is_paid_nothing(rt: HostRuntime) -> Result<(), Fail> {
    let before = opened(rt.alloc())?;
    let mut exchange = opened(rt.alloc())?;
    let line = exchange.run(b"do,0,m,ann,amy,ann_coin,ann_usd,-,-,settle")?;
    let told =
        "0 15 refused 23 BalanceTooLarge 18446744073709551615 100 ann_coin probe 0 18446744073709551615 ann_usd probe 0 0\n";
    assert_eq!(rt; line.as_str(), told);
    assert!(rt; *before.cell.accounts() == *exchange.cell.accounts());
    Ok(())
}
