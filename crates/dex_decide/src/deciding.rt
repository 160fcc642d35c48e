//! Whether a row is refused, instruction by instruction. Each function reads only.

ghost use Rattle.std.specs.Prelude.{◌≡◌, ◌==◌, Some, None};
ghost use Rattle.dex_types.specs.Cancel.{First};
ghost use Rattle.dex_types.specs.Reasons.{answered};
ghost use Rattle.dex_types.specs.Why as reasons;
ghost use Rattle.dex_ring.specs.Ring.{IsEventQueue, ring_of, room_of};
ghost use Rattle.dex_cancel.specs.Cancelling.{named_by};
ghost use Rattle.dex_cancel.specs.declared.what.CancelWhat.TheVariants as cancels;
ghost use Rattle.dex_market.specs.MarketAccount.{IsMarket, market_words};
ghost use Rattle.dex_accounts.specs.Decoded.{AreSound, market_in};
ghost use Rattle.dex_accounts.specs.Parts.{HasOpen, parts_of};
ghost use Rattle.dex_plan.specs.declared.plan.Plan.TheVariants as plans;
ghost use Rattle.dex_plan.specs.Given.{SeesEachOnce, asked_by, party_on};
ghost use Rattle.dex_plan.specs.Plans as planning;

use crate::named::{Acting, named_first, open_named};
use dex_cancel::CancelWhat;
use dex_cancel_slots::{Owner, decide_cancel_by_slots};
use dex_lent::ReadMarket;
use dex_market::MarketRef;
use dex_orders::OrdersRef;
use dex_plan::{Ask, Plan};
use dex_reasons::{disabled, not_authority, not_owner};
use dex_ring::RingRef;
use dex_settle::{decide_close, decide_disable, decide_init, decide_settle, decide_sweep};
use dex_slab::SlabRef;
use dex_types::{Refusal, Seen, Side};

/// Sweeping the fees.
#[inline(never)]
pub fn decide_sweep_row<M: ReadMarket>(
    accounts: &M,
    ask: &Ask<'_>,
    seen: &Seen,
) -> Result<Plan, Refusal>
    requires { AreSound (M.held accounts.now) }
    ensures { result ≡ answered (reasons.why_sweep (asked_by ask.entry.now) seen.now (market_in (M.held accounts.now)))
        (plans.Sweep (market_in (M.held accounts.now)).pc_fees) }
{
    let market = MarketRef {
        bytes: accounts.market(),
    };
    match decide_sweep(&market, accounts.authority(), ask.signer, seen) {
        Ok(fees) => Ok(Plan::Sweep(fees)),
        Err(why) => Err(why),
    }
}

/// Disabling the market.
#[inline(never)]
pub fn decide_disable_row<M: ReadMarket>(accounts: &M, ask: &Ask<'_>) -> Result<Plan, Refusal>
    requires { AreSound (M.held accounts.now) }
    ensures { result ≡ answered (reasons.why_disable (asked_by ask.entry.now) (market_in (M.held accounts.now)))
        plans.Disable }
{
    let market = MarketRef {
        bytes: accounts.market(),
    };
    match decide_disable(&market, accounts.authority(), ask.signer) {
        Ok(()) => Ok(Plan::Disable),
        Err(why) => Err(why),
    }
}

/// Opening an account.
#[inline(never)]
pub fn decide_init_row<M: ReadMarket>(accounts: &M, ask: &Ask<'_>) -> Result<Plan, Refusal>
    requires { AreSound (M.held accounts.now) }
    ensures { result ≡ answered (reasons.why_init (asked_by ask.entry.now) (market_in (M.held accounts.now)))
        plans.Init }
{
    let market = MarketRef {
        bytes: accounts.market(),
    };
    match named_first(accounts, ask.named) {
        None => Err(disabled_or_none(market)),
        Some(acting) => match decide_init(&market, acting.bytes) {
            Ok(()) => Ok(Plan::Init),
            Err(why) => Err(why),
        },
    }
}

/// Why an account that is none of the market's is not opened.
fn disabled_or_none(market: MarketRef<'_>) -> Refusal
    requires { IsMarket market.bytes.now }
    ensures { Some result
        ≡ reasons.why_opening ((market_words market.entry.bytes.now).account_flags == 131) None }
{
    match disabled(market.account_flags()) {
        Some(why) => why,
        None => Refusal::NoAccount,
    }
}

/// Closing an account.
#[inline(never)]
pub fn decide_close_row<M: ReadMarket>(accounts: &M, ask: &Ask<'_>) -> Result<Plan, Refusal>
    requires { AreSound (M.held accounts.now) }
    ensures { result ≡ answered (reasons.of_party (reasons.why_close (asked_by ask.entry.now))
        (party_on (asked_by ask.entry.now) (market_in (M.held accounts.now)))) plans.Close }
{
    match named_first(accounts, ask.named) {
        None => Err(Refusal::NoAccount),
        Some(acting) => match decide_close(acting.bytes, ask.signer) {
            Ok(()) => Ok(Plan::Close),
            Err(why) => Err(why),
        },
    }
}

/// Settling an open account.
#[inline(never)]
pub fn decide_settle_row<M: ReadMarket>(
    accounts: &M,
    ask: &Ask<'_>,
    seen: &Seen,
) -> Result<Plan, Refusal>
    requires sound { AreSound (M.held accounts.now) }
    requires sees { SeesEachOnce seen.now }
    ensures { result ≡ planning.answered_by
        (reasons.why_settle (asked_by ask.entry.now) seen.now (market_in (M.held accounts.now)))
        (planning.settle_plan seen.now) (party_on (asked_by ask.entry.now) (market_in (M.held accounts.now))) }
{
    let Some(acting) = open_named(accounts, ask.named) else {
        return Err(Refusal::NoAccount);
    };
    let market = MarketRef {
        bytes: accounts.market(),
    };
    let orders = OrdersRef {
        bytes: acting.bytes,
    };
    match decide_settle(&market, &orders, ask.signer, seen) {
        Ok(plan) => Ok(Plan::Settle(plan)),
        Err(why) => Err(why),
    }
}

/// The free places of the event queue.
fn room_in(events: &[u8]) -> u32
    requires { IsEventQueue events.now }
    ensures { result ≡ room_of (ring_of events.now) }
{
    RingRef { bytes: events }.room()
}

/// Cancelling orders of an open account, once its signer may ask for it.
fn decide_cancel_of<M: ReadMarket>(
    accounts: &M,
    acting: Acting<'_>,
    what: CancelWhat,
) -> Result<Plan, Refusal>
    requires sound { AreSound (M.held accounts.now) }
    requires acting { HasOpen acting.address acting.bytes.now (parts_of (M.held accounts.now)) }
    ensures { result ≡ answered
        (reasons.why_cancelled (named_by what) acting.entry.address (market_in (M.held accounts.now)))
        (plans.Cancel what) }
{
    let owner = Owner {
        account: acting.address,
        orders: OrdersRef {
            bytes: acting.bytes,
        },
    };
    let bids = SlabRef {
        bytes: accounts.bids(),
        side: Side::Bid,
    };
    let asks = SlabRef {
        bytes: accounts.asks(),
        side: Side::Ask,
    };
    match decide_cancel_by_slots(&bids, &asks, room_in(accounts.events()), owner, &what) {
        Ok(_) => Ok(Plan::Cancel(what)),
        Err(why) => Err(why),
    }
}

/// Cancelling orders of an open account, as its trader.
#[inline(never)]
pub fn decide_cancel_row<M: ReadMarket>(
    accounts: &M,
    ask: &Ask<'_>,
    what: CancelWhat,
) -> Result<Plan, Refusal>
    requires { AreSound (M.held accounts.now) }
    ensures { result ≡ answered (reasons.of_party
        (reasons.why_cancel (named_by what) (asked_by ask.entry.now) (market_in (M.held accounts.now)))
        (party_on (asked_by ask.entry.now) (market_in (M.held accounts.now)))) (plans.Cancel what) }
{
    let Some(acting) = open_named(accounts, ask.named) else {
        return Err(Refusal::NoAccount);
    };
    let orders = OrdersRef {
        bytes: acting.bytes,
    };
    match not_owner(orders.owner(), ask.signer) {
        Some(why) => Err(why),
        None => decide_cancel_of(accounts, acting, what),
    }
}

/// Pruning an open account, as the market's authority.
#[inline(never)]
pub fn decide_prune_row<M: ReadMarket>(
    accounts: &M,
    ask: &Ask<'_>,
    limit: u16,
) -> Result<Plan, Refusal>
    requires { AreSound (M.held accounts.now) }
    ensures { result ≡ answered (reasons.of_party
        (reasons.why_prune (First limit) (asked_by ask.entry.now) (market_in (M.held accounts.now)))
        (party_on (asked_by ask.entry.now) (market_in (M.held accounts.now)))) (plans.Cancel (cancels.Prune limit)) }
{
    let Some(acting) = open_named(accounts, ask.named) else {
        return Err(Refusal::NoAccount);
    };
    match not_authority(accounts.authority(), ask.signer) {
        Some(why) => Err(why),
        None => decide_cancel_of(accounts, acting, CancelWhat::Prune(limit)),
    }
}
