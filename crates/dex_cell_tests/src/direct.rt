//! Public calls of the step crates by their own names, beside what rows come to.

use crate::calls::{cancel, crank};
use crate::doing::{order, take};
use crate::exchange::Exchange;
use crate::making::labelled;
use dex_cancel::CancelWhat;
use dex_match::{OrderPlan, Taker};
use dex_take::TakePlan;
use dex_types::{
    Address, ClientIds, OrderType, Program, Refusal, Seen, SelfTrade, Side, Tier, WalletSeen,
};
use std::alloc::Global;
use std::process::Abort;
use std::test::Fail;

/// An ask of `amy` and a bid of `ben` rest, and `ben` has met the ask but for one lot: its fill, his own fill and his
/// out are pending.
const ROWS: &[u8] = b"do,0,m,ann,amy,ann_coin,-,-,-,new ask 50 4 1 decrement limit 7 10
do,1,m,bob,ben,-,bob_usd,-,-,new bid 40 2 1000 decrement limit 5 10
do,1,m,bob,ben,-,bob_usd,-,-,new bid 60 3 2000 decrement ioc 8 10
";

/// The ask that rests.
const ASK: u128 = 922337203685477580800;

/// An exchange after the rows.
pub(crate) fn opened(alloc: Global) -> Result<Exchange, Fail> {
    let mut exchange = Exchange::open(alloc)?;
    exchange.run(ROWS)?;
    Ok(exchange)
}

pub(crate) fn amy() -> Address {
    labelled(*b"amy\0\0")
}

pub(crate) fn ben() -> Address {
    labelled(*b"ben\0\0")
}

/// An order of one lot.
pub(crate) fn taker(account: Address, id_side: Side, price: u64) -> Taker {
    Taker {
        id_side,
        price,
        lots: 1,
        lock: 1000,
        self_trade: SelfTrade::Abort,
        order_type: OrderType::Limit,
        client: 11,
        limit: 10,
        tier: Tier::Base,
        account,
        now: 0,
        max_ts: None,
        program: Program::Serum,
    }
}

/// What is decided of an order on the accounts behind the rows; none where its account is not open.
fn decided(
    alloc: Global,
    taker: &Taker,
    balance: u64,
) -> Result<Option<Result<OrderPlan, Refusal>>, Fail> {
    let mut accounts = opened(alloc)?.into_accounts();
    match order(alloc, &mut accounts, taker, balance)? {
        Some((Ok((plan, _)), _)) => Ok(Some(Ok(plan))),
        Some((Err(why), _)) => Ok(Some(Err(why))),
        None => Ok(None),
    }
}

#[test]
fn a_bid_is_decided(rt: HostRuntime) -> Result<(), Fail> {
    let bid = taker(ben(), Side::Bid, 50);
    let plan = OrderPlan {
        deposit: 504,
        needed: 4,
        lots: 1,
        pc: 500,
        fee: 2,
        rested: 0,
        slot: 2,
        id: 940783947759187132412,
    };
    let short = Refusal::InsufficientFunds {
        needed: 504,
        balance: 503,
    };
    assert!(rt; decided(rt.alloc(), &bid, 504)? == Some(Ok(plan)));
    assert!(rt; decided(rt.alloc(), &bid, 503)? == Some(Err(short)));
    let mut exchange = opened(rt.alloc())?;
    let line = exchange.run(b"do,1,m,bob,ben,-,bob_usd,-,-,new bid 50 1 1000 abort limit 11 10")?;
    let told = "1 15 ok order 940783947759187132412 2 1 500 2 0 bob_usd debit 504 2200\n";
    assert_eq!(rt; line.as_str(), told);
    Ok(())
}

#[test]
fn an_ask_is_decided(rt: HostRuntime) -> Result<(), Fail> {
    let ask = taker(amy(), Side::Ask, 40);
    let plan = OrderPlan {
        deposit: 100,
        needed: 3,
        lots: 1,
        pc: 400,
        fee: 1,
        rested: 0,
        slot: 1,
        id: 737869762948382064643,
    };
    let own = taker(amy(), Side::Bid, 50);
    let refused = Refusal::WouldSelfTrade { order: ASK };
    assert!(rt; decided(rt.alloc(), &ask, 600)? == Some(Ok(plan)));
    assert!(rt; decided(rt.alloc(), &own, 5000)? == Some(Err(refused)));
    let mut exchange = opened(rt.alloc())?;
    let line = exchange.run(b"do,0,m,ann,amy,ann_coin,-,-,-,new ask 40 1 1000 abort limit 11 10")?;
    let told = "0 15 ok order 737869762948382064643 1 1 400 1 0 ann_coin debit 100 600\n";
    assert_eq!(rt; line.as_str(), told);
    Ok(())
}

/// A wallet of `bob`, and what it holds.
pub(crate) fn wallet(address: &[u8; 5], mint: &[u8; 5], balance: u64) -> Option<WalletSeen> {
    Some(WalletSeen {
        address: labelled(*address),
        mint: labelled(*mint),
        owner: labelled(*b"bob\0\0"),
        balance,
    })
}

/// Wallets with so much quote and no base.
pub(crate) fn seen(balance: u64) -> Seen {
    Seen {
        coin: wallet(b"base\0", b"coin\0", 0),
        pc: wallet(b"quote", b"usd\0\0", balance),
        discount: None,
        referrer: None,
        srm: None,
        msrm: None,
        program: Program::Serum,
    }
}

/// What is decided of a take with a least fill of so many lots, on the accounts behind the rows.
fn decided_take(
    alloc: Global,
    taker: &Taker,
    min_lots: u64,
) -> Result<Result<TakePlan, Refusal>, Fail> {
    let mut accounts = opened(alloc)?.into_accounts();
    match take(&mut accounts, taker, min_lots, &seen(502)) {
        Ok((plan, _)) => Ok(Ok(plan)),
        Err(why) => Ok(Err(why)),
    }
}

#[test]
fn a_take_is_decided(rt: HostRuntime) -> Result<(), Fail> {
    let bid = taker(ben(), Side::Bid, 50);
    let plan = TakePlan {
        deposit: 502,
        payout: 100,
        lots: 1,
        pc: 500,
        fee: 2,
    };
    let few = Refusal::BelowMinimum { got: 1 };
    assert!(rt; decided_take(rt.alloc(), &bid, 1)? == Ok(plan));
    assert!(rt; decided_take(rt.alloc(), &bid, 2)? == Err(few));
    let mut exchange = opened(rt.alloc())?;
    let line = exchange.run(b"do,1,m,bob,-,bob_coin,bob_usd,-,-,take bid 50 1 1000 1 0 10")?;
    let told = "1 15 ok take 1 500 2 bob_coin credit 100 0 bob_usd debit 502 2200\n";
    assert_eq!(rt; line.as_str(), told);
    Ok(())
}

/// A cancel answers so, and leaves all account bytes as its row does.
fn cancels<A: Abort>(
    rt: &A,
    alloc: Global,
    owner: Address,
    what: CancelWhat,
    answer: Result<(u32, u32), Refusal>,
    row: &[u8],
) -> Result<(), Fail> {
    let mut accounts = opened(alloc)?.into_accounts();
    assert!(rt; cancel(&mut accounts, owner, &what) == answer);
    let mut exchange = opened(alloc)?;
    exchange.run(row)?;
    assert!(rt; accounts == *exchange.cell.accounts());
    Ok(())
}

#[test]
fn an_order_is_cancelled_by_its_id(rt: HostRuntime) -> Result<(), Fail> {
    let alloc = rt.alloc();
    let id = CancelWhat::ById {
        side: Side::Ask,
        id: ASK,
    };
    let row = b"do,0,m,ann,amy,-,-,-,-,cancel ask 922337203685477580800";
    cancels(&rt, alloc, amy(), id, Ok((1, 1)), row)?;
    let yours = Err(Refusal::OrderNotYours { owner: amy() });
    let row = b"do,1,m,bob,ben,-,-,-,-,cancel ask 922337203685477580800";
    cancels(&rt, alloc, ben(), id, yours, row)
}

#[test]
fn orders_are_cancelled_by_client_ids(rt: HostRuntime) -> Result<(), Fail> {
    let alloc = rt.alloc();
    let first = CancelWhat::ByClient(7);
    let row = b"do,0,m,ann,amy,-,-,-,-,cancelc 7";
    cancels(&rt, alloc, amy(), first, Ok((1, 1)), row)?;
    let listed = CancelWhat::ByClients(ClientIds::new(&[9, 5]));
    let row = b"do,1,m,bob,ben,-,-,-,-,cancels 9 5";
    cancels(&rt, alloc, ben(), listed, Ok((1, 1)), row)
}

#[test]
fn orders_are_pruned(rt: HostRuntime) -> Result<(), Fail> {
    let row = b"do,1,m,admin,ben,-,-,-,-,prune 3";
    cancels(
        &rt,
        rt.alloc(),
        ben(),
        CancelWhat::Prune(3),
        Ok((1, 1)),
        row,
    )
}

/// So many events are consumed, which leaves all account bytes as its row does.
fn consumes<A: Abort>(
    rt: &A,
    alloc: Global,
    named: &[Address],
    limit: u16,
    count: u32,
    row: &[u8],
) -> Result<(), Fail> {
    let mut accounts = opened(alloc)?.into_accounts();
    assert!(rt; crank(&mut accounts, named, limit) == count);
    let mut exchange = opened(alloc)?;
    exchange.run(row)?;
    assert!(rt; accounts == *exchange.cell.accounts());
    Ok(())
}

#[test]
fn events_are_consumed(rt: HostRuntime) -> Result<(), Fail> {
    let alloc = rt.alloc();
    let row = b"do,1,m,bob,amy,-,-,-,-,consume 10";
    consumes(&rt, alloc, &[amy()], 10, 1, row)?;
    let row = b"do,1,m,bob,amy ben,-,-,-,-,consume 2";
    consumes(&rt, alloc, &[amy(), ben()], 2, 2, row)?;
    let row = b"do,1,m,bob,ben,-,-,-,-,consume 10";
    consumes(&rt, alloc, &[ben()], 10, 0, row)
}
