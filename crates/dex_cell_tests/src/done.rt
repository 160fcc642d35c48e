//! What public calls of the step crates do by their own names, beside what rows leave.

use crate::direct::{amy, ben, opened, seen, taker, wallet};
use crate::doing::{disable, open_and_close, order, settle, sweep, take};
use crate::exchange::Exchange;
use crate::making::labelled;
use dex_accounts::find_bytes;
use dex_settle::SettlePlan;
use dex_types::{Address, Refusal, Reply, Seen, Side};
use std::alloc::Global;
use std::test::Fail;

/// The accounts behind the rows, the account of an address among them.
fn bytes_of(exchange: &Exchange, address: Address) -> Option<&[u8]> {
    find_bytes(&exchange.cell.accounts().orders, address)
}

/// An exchange whose events are consumed, and then a row more.
fn consumed(alloc: Global, row: &[u8]) -> Result<Exchange, Fail> {
    let mut exchange = opened(alloc)?;
    exchange.run(b"do,1,m,bob,amy ben,-,-,-,-,consume 10")?;
    exchange.run(row)?;
    Ok(exchange)
}

#[test]
fn a_bid_is_done(rt: HostRuntime) -> Result<(), Fail> {
    let mut accounts = opened(rt.alloc())?.into_accounts();
    let bid = taker(ben(), Side::Bid, 50);
    let reply = Reply::Ordered {
        id: 940783947759187132412,
        slot: 2,
        lots: 1,
        pc: 500,
        fee: 2,
        rested: 0,
    };
    let Some((Ok((_, told)), held)) = order(rt.alloc(), &mut accounts, &bid, 504)? else {
        return Err(Fail::new("no order"));
    };
    assert!(rt; told == reply);
    let mut exchange = opened(rt.alloc())?;
    exchange.run(b"do,1,m,bob,ben,-,bob_usd,-,-,new bid 50 1 1000 abort limit 11 10")?;
    let left = exchange.cell.accounts();
    assert!(rt; bytes_of(&exchange, ben()) == Some(held.as_slice()));
    assert!(rt; accounts.market == left.market && accounts.requests == left.requests);
    assert!(rt; accounts.events == left.events);
    assert!(rt; accounts.bids == left.bids && accounts.asks == left.asks);
    Ok(())
}

#[test]
fn a_take_is_done(rt: HostRuntime) -> Result<(), Fail> {
    let mut accounts = opened(rt.alloc())?.into_accounts();
    let reply = Reply::Took {
        lots: 1,
        pc: 500,
        fee: 2,
    };
    let Ok((_, told)) = take(&mut accounts, &taker(ben(), Side::Bid, 50), 1, &seen(502)) else {
        return Err(Fail::new("no take"));
    };
    assert!(rt; told == reply);
    let mut exchange = opened(rt.alloc())?;
    exchange.run(b"do,1,m,bob,-,bob_coin,bob_usd,-,-,take bid 50 1 1000 1 0 10")?;
    let left = exchange.cell.accounts();
    assert!(rt; accounts.market == left.market && accounts.events == left.events);
    assert!(rt; accounts.bids == left.bids && accounts.asks == left.asks);
    Ok(())
}

/// Wallets with so much base and no quote.
fn with_base(balance: u64) -> Seen {
    Seen {
        coin: wallet(b"base\0", b"coin\0", balance),
        ..seen(0)
    }
}

#[test]
fn funds_are_settled(rt: HostRuntime) -> Result<(), Fail> {
    let alloc = rt.alloc();
    let bob = labelled(*b"bob\0\0");
    let matched = b"do,1,m,bob,-,-,-,-,-,match 1";
    let mut others = consumed(alloc, matched)?.into_accounts();
    let full = settle(alloc, &mut others, ben(), bob, &with_base(u64::MAX))?;
    let too_large = Refusal::BalanceTooLarge {
        balance: u64::MAX,
        amount: 300,
    };
    assert!(rt; full.map(|told| told.0) == Some(Err(too_large)));
    let plan = SettlePlan {
        coin: 300,
        pc: 496,
        referrer: 0,
        to_fees: 0,
    };
    let mut accounts = consumed(alloc, matched)?.into_accounts();
    let Some((told, held)) = settle(alloc, &mut accounts, ben(), bob, &with_base(0))? else {
        return Err(Fail::new("no account"));
    };
    assert!(rt; told == Ok(plan));
    let exchange = consumed(alloc, b"do,1,m,bob,ben,bob_coin,bob_usd,-,-,settle")?;
    assert!(rt; bytes_of(&exchange, ben()) == Some(held.as_slice()));
    assert!(rt; accounts.market == exchange.cell.accounts().market);
    Ok(())
}

#[test]
fn fees_are_swept(rt: HostRuntime) -> Result<(), Fail> {
    let admin = labelled(*b"admin");
    let mut others = opened(rt.alloc())?.into_accounts();
    let refused = Refusal::NotAuthority { authority: admin };
    assert!(rt; sweep(&mut others, ben(), &seen(0)) == Err(refused));
    let mut accounts = opened(rt.alloc())?.into_accounts();
    assert!(rt; sweep(&mut accounts, admin, &seen(0)) == Ok(4));
    let mut exchange = opened(rt.alloc())?;
    exchange.run(b"do,0,m,admin,-,-,bob_usd,-,-,sweep")?;
    assert!(rt; accounts.market == exchange.cell.accounts().market);
    Ok(())
}

#[test]
fn a_market_is_disabled(rt: HostRuntime) -> Result<(), Fail> {
    let admin = labelled(*b"admin");
    let mut others = opened(rt.alloc())?.into_accounts();
    let refused = Refusal::NotAuthority { authority: admin };
    assert!(rt; disable(&mut others, ben()) == Err(refused));
    let mut accounts = opened(rt.alloc())?.into_accounts();
    assert!(rt; disable(&mut accounts, admin) == Ok(()));
    let mut exchange = opened(rt.alloc())?;
    exchange.run(b"do,0,m,admin,-,-,-,-,-,disable")?;
    assert!(rt; accounts.market == exchange.cell.accounts().market);
    Ok(())
}

#[test]
fn an_account_is_opened_and_closed(rt: HostRuntime) -> Result<(), Fail> {
    let ann = labelled(*b"ann\0\0");
    let mut exchange = Exchange::open(rt.alloc())?;
    let accounts = Exchange::open(rt.alloc())?.into_accounts();
    let (told, opened, closed) = open_and_close(&accounts, ann, ben())?;
    let exists = Err(Refusal::AccountExists);
    let other = Err(Refusal::NotOwner { owner: ann });
    let none = Err(Refusal::NoAccount);
    assert!(rt; told == [Ok(()), exists, other, Ok(()), exists, none]);
    assert!(rt; bytes_of(&exchange, amy()) == Some(opened.as_slice()));
    exchange.run(b"do,0,m,ann,amy,-,-,-,-,close")?;
    assert!(rt; bytes_of(&exchange, amy()) == Some(closed.as_slice()));
    Ok(())
}
