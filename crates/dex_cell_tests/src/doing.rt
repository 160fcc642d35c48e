//! Public calls of the step crates that do what they decided, by their own names: on the bytes of a sound market, and
//! on a copy of one account that is open there. Rows do the same with all accounts in place.

ghost use Rattle.dex_accounts.specs.Decoded.{AreSound};
ghost use Rattle.dex_accounts.specs.Parts.{HasOpen, parts_of as market_parts};
ghost use Rattle.dex_market.specs.MarketAccount.{IsMarket};
ghost use Rattle.dex_match.specs.OrderParts.{IsGiven, OrderGiven, given_by, parts_of};
ghost use Rattle.dex_match.specs.OrderTerms.{order_of};
ghost use Rattle.dex_match.specs.Ordering.{IsDecided};
ghost use Rattle.dex_orders.specs.OrdersAccount.{IsOpen, IsOrders};
ghost use Rattle.dex_settle.specs.SettleGiven as settling;
ghost use Rattle.dex_slab.specs.Slab.{IsSlab, resting, room_in};
ghost use Rattle.dex_take.specs.TakeGiven as taking;
ghost use Rattle.dex_types.specs.Accounts.{market_accounts_of};
ghost use Rattle.dex_types.specs.Side as book;
ghost use Rattle.std.specs.Prelude.{◌≡◌, ◌≤◌, IfOk, true};

use crate::calls::open_at;
use dex_market::{MarketRef, MarketView, RequestRef, RequestView};
use dex_match::{OrderPlan, Taker, apply_order, decide_order};
use dex_orders::{OrdersRef, OrdersView, check_orders, close, init};
use dex_ring::{RingRef, RingView};
use dex_settle::{
    SettlePlan, apply_disable, apply_settle, apply_sweep, decide_close, decide_disable,
    decide_init, decide_settle, decide_sweep,
};
use dex_slab::{SlabRef, SlabView};
use dex_take::{TakePlan, apply_take, decide_take};
use dex_types::{Address, MarketAccounts, Refusal, Reply, Seen, Side, WalletSeen};
use std::alloc::Global;
use std::test::Fail;

/// What a new order does, or why it is refused.
fn order_plan(
    taker: &Taker,
    balance: u64,
    market: &[u8],
    requests: &[u8],
    events: &[u8],
    account: &[u8],
    own: &[u8],
    opposite: &[u8],
) -> Result<OrderPlan, Refusal>
    requires own { IsSlab own.now }
    requires opposite { IsSlab opposite.now }
    requires given { IsGiven taker.now.id_side taker.now.account (given_by market.now requests.now events.now account.now
        (resting taker.now.id_side own.now) (room_in own.now) (resting (book.opposite taker.now.id_side) opposite.now)) }
    ensures { let given : OrderGiven = given_by market.now requests.now events.now account.now
        (resting taker.entry.now.id_side own.now) (room_in own.now) (resting (book.opposite taker.entry.now.id_side) opposite.now) in
        IfOk result (λ plan. IsDecided plan taker.entry.now.id_side (order_of taker.entry.now) (parts_of given)) }
{
    let side = taker.id_side;
    decide_order(
        &MarketRef { bytes: market },
        &RequestRef { bytes: requests },
        &SlabRef { bytes: own, side },
        &SlabRef {
            bytes: opposite,
            side: side.opposite(),
        },
        &RingRef { bytes: events },
        &OrdersRef { bytes: account },
        taker,
        balance,
    )
}

/// A new order is decided and done: the plan, and the reply.
fn order_on(
    taker: &Taker,
    balance: u64,
    market: &mut [u8],
    requests: &mut [u8],
    events: &mut [u8],
    account: &mut [u8],
    own: &mut [u8],
    opposite: &mut [u8],
) -> Result<(OrderPlan, Reply), Refusal>
    requires price { 1 ≤ taker.now.price }
    requires own { IsSlab own.old }
    requires opposite { IsSlab opposite.old }
    requires given { IsGiven taker.now.id_side taker.now.account (given_by market.old requests.old events.old account.old
        (resting taker.now.id_side own.old) (room_in own.old) (resting (book.opposite taker.now.id_side) opposite.old)) }
{
    let side = taker.id_side;
    let plan = order_plan(
        taker, balance, market, requests, events, account, own, opposite,
    )?;
    let reply = apply_order(
        &plan,
        taker,
        &mut MarketView { bytes: market },
        &mut RequestView { bytes: requests },
        &mut SlabView { bytes: own, side },
        &mut SlabView {
            bytes: opposite,
            side: side.opposite(),
        },
        &mut RingView { bytes: events },
        &mut OrdersView { bytes: account },
    );
    Ok((plan, reply))
}

/// Does an order on the accounts of a market, and on a copy of the account that it is of.
fn order_among(
    accounts: &mut MarketAccounts,
    held: &mut [u8],
    taker: &Taker,
    balance: u64,
) -> Result<(OrderPlan, Reply), Refusal>
    requires sound { AreSound (market_accounts_of accounts.old) }
    requires open { HasOpen taker.now.account held.old (market_parts (market_accounts_of accounts.old)) }
    requires price { 1 ≤ taker.now.price }
{
    let MarketAccounts {
        market,
        requests,
        events,
        bids,
        asks,
        ..
    } = accounts;
    match taker.id_side {
        Side::Bid => order_on(taker, balance, market, requests, events, held, bids, asks),
        Side::Ask => order_on(taker, balance, market, requests, events, held, asks, bids),
    }
}

/// The bytes of an account that changed, beside what was answered.
type Told<T> = (Result<T, Refusal>, Vec<u8>);

/// A new order is decided and done: its plan and reply, or why it is refused, and its account's bytes; none where its
/// account is not open.
pub(crate) fn order(
    alloc: Global,
    accounts: &mut MarketAccounts,
    taker: &Taker,
    balance: u64,
) -> Result<Option<Told<(OrderPlan, Reply)>>, Fail>
    requires { AreSound (market_accounts_of accounts.old) }
{
    let Some(open) = open_at(accounts, taker.account) else {
        return Ok(None);
    };
    let mut held = open.to_vec(alloc)?;
    if taker.price == 0 {
        return Ok(None);
    }
    let told = order_among(accounts, &mut held, taker, balance);
    Ok(Some((told, held)))
}

/// A take is decided, with a least fill of so many lots, and done: the plan, and the reply.
fn take_on(
    taker: &Taker,
    min_lots: u64,
    seen: &Seen,
    market: &mut [u8],
    events: &mut [u8],
    opposite: &mut [u8],
) -> Result<(TakePlan, Reply), Refusal>
    requires opposite { IsSlab opposite.old }
    requires parts { taking.IsOfSound taker.now.id_side
        (taking.given market.old events.old (resting (book.opposite taker.now.id_side) opposite.old)) }
{
    let side = taker.id_side.opposite();
    let plan = decide_take(
        &MarketRef { bytes: market },
        &SlabRef {
            bytes: opposite,
            side,
        },
        &RingRef { bytes: events },
        taker,
        min_lots,
        0,
        seen,
    )?;
    let reply = apply_take(
        &plan,
        taker,
        &mut MarketView { bytes: market },
        &mut SlabView {
            bytes: opposite,
            side,
        },
        &mut RingView { bytes: events },
    );
    Ok((plan, reply))
}

/// A take is decided, with a least fill of so many lots, and done: its plan and reply, or why it is refused.
pub(crate) fn take(
    accounts: &mut MarketAccounts,
    taker: &Taker,
    min_lots: u64,
    seen: &Seen,
) -> Result<(TakePlan, Reply), Refusal>
    requires { AreSound (market_accounts_of accounts.old) }
{
    let MarketAccounts {
        market,
        events,
        bids,
        asks,
        ..
    } = accounts;
    match taker.id_side {
        Side::Bid => take_on(taker, min_lots, seen, market, events, asks),
        Side::Ask => take_on(taker, min_lots, seen, market, events, bids),
    }
}

/// Settling is decided and done.
fn settle_on(
    signer: Address,
    seen: &Seen,
    market: &mut [u8],
    account: &mut [u8],
) -> Result<SettlePlan, Refusal>
    requires market { IsMarket market.old }
    requires account { IsOpen account.old }
    requires parts { settling.IsOfSound (settling.given market.old account.old) }
    requires wallets { settling.HasOneCoinMint seen.now }
{
    let plan = decide_settle(
        &MarketRef { bytes: market },
        &OrdersRef { bytes: account },
        signer,
        seen,
    )?;
    apply_settle(
        &plan,
        &mut MarketView { bytes: market },
        &mut OrdersView { bytes: account },
    );
    Ok(plan)
}

/// Whether no wallet has two roles.
fn have_one_mint(role: Option<WalletSeen>, other: Option<WalletSeen>) -> bool
    ensures { result ≡ true → settling.HaveOneMint role other }
{
    match (role, other) {
        (Some(wallet), Some(same)) => wallet.address != same.address,
        _ => true,
    }
}

/// Settling is decided and done: what is paid, and the account's bytes; none where the account is not open, or where
/// the coin wallet has another role.
pub(crate) fn settle(
    alloc: Global,
    accounts: &mut MarketAccounts,
    owner: Address,
    signer: Address,
    seen: &Seen,
) -> Result<Option<Told<SettlePlan>>, Fail>
    requires { AreSound (market_accounts_of accounts.old) }
{
    let Some(open) = open_at(accounts, owner) else {
        return Ok(None);
    };
    let mut held = open.to_vec(alloc)?;
    if !have_one_mint(seen.coin, seen.pc) || !have_one_mint(seen.coin, seen.referrer) {
        return Ok(None);
    }
    let told = settle_on(signer, seen, &mut accounts.market, &mut held);
    Ok(Some((told, held)))
}

/// Sweeping is decided and done: the fees.
fn sweep_on(
    authority: Address,
    signer: Address,
    seen: &Seen,
    market: &mut [u8],
) -> Result<u64, Refusal>
    requires { IsMarket market.old }
{
    let fees = decide_sweep(&MarketRef { bytes: market }, authority, signer, seen)?;
    apply_sweep(&mut MarketView { bytes: market });
    Ok(fees)
}

/// The authority sweeps a market's fees, if it signs.
pub(crate) fn sweep(
    accounts: &mut MarketAccounts,
    signer: Address,
    seen: &Seen,
) -> Result<u64, Refusal>
    requires { AreSound (market_accounts_of accounts.old) }
{
    sweep_on(accounts.authority, signer, seen, &mut accounts.market)
}

/// Disabling is decided and done.
fn disable_on(authority: Address, signer: Address, market: &mut [u8]) -> Result<(), Refusal>
    requires { IsMarket market.old }
{
    decide_disable(&MarketRef { bytes: market }, authority, signer)?;
    apply_disable(&mut MarketView { bytes: market });
    Ok(())
}

/// The authority disables a market, if it signs.
pub(crate) fn disable(accounts: &mut MarketAccounts, signer: Address) -> Result<(), Refusal>
    requires { AreSound (market_accounts_of accounts.old) }
{
    disable_on(accounts.authority, signer, &mut accounts.market)
}

/// An account is opened for its owner on a market, if that is not refused.
fn open_on(
    market: &[u8],
    account: &mut [u8],
    address: Address,
    owner: Address,
) -> Result<(), Refusal>
    requires market { IsMarket market.now }
    requires account { IsOrders account.old }
    ensures account { IsOrders account.new }
{
    decide_init(&MarketRef { bytes: market }, account)?;
    init(account, address, owner);
    Ok(())
}

/// An account is closed for a signer, if that is not refused.
fn close_on(account: &mut [u8], signer: Address) -> Result<(), Refusal>
    requires account { IsOrders account.old }
    ensures account { IsOrders account.new }
{
    decide_close(account, signer)?;
    close(account);
    Ok(())
}

/// An account of a market is opened for a person; then it is opened again, and another signs its closing; then it is
/// closed, and then opened and closed again. What each is answered, and the bytes when it is opened and when it is
/// closed.
pub(crate) fn open_and_close(
    accounts: &MarketAccounts,
    person: Address,
    other: Address,
) -> Result<([Result<(), Refusal>; 6], [u8; 3228], [u8; 3228]), Fail>
    requires { AreSound (market_accounts_of accounts.now) }
{
    let mut bytes = [0; 3228];
    check_orders(&bytes)?;
    let first = open_on(&accounts.market, &mut bytes, accounts.address, person);
    let opened = bytes;
    let again = open_on(&accounts.market, &mut bytes, accounts.address, person);
    let by_other = close_on(&mut bytes, other);
    let ended = close_on(&mut bytes, person);
    let closed = bytes;
    let reopened = open_on(&accounts.market, &mut bytes, accounts.address, person);
    let twice = close_on(&mut bytes, person);
    let told = [first, again, by_other, ended, reopened, twice];
    Ok((told, opened, closed))
}
