//! What a new order does, or why it is refused, before anything is changed.

ghost use Rattle.std.specs.Prelude.{◌≡◌, ◌+◌, ◌^◌, ◌<◌, [], ◌∷◌, Option, Some, IfSome};
ghost use Rattle.dex_market.specs.MarketAccount.{IsMarket, market_words};
ghost use Rattle.dex_match.specs.LentParts.{decided_in, outcome_in, shown, shown_in};
ghost use Rattle.dex_match.specs.OrderParts.{IsGiven};
ghost use Rattle.dex_match.specs.Deciding.{IsKnown};
ghost use Rattle.dex_ring.specs.PendingFills.{pending_fills_of};
ghost use Rattle.dex_types.specs.declared.refusals.Refusal.{Refusal};
ghost use Rattle.dex_match.specs.declared.order_plan.Decided.{Decided};
ghost use Rattle.dex_market.specs.MarketAccount.{vault_of};
ghost use Rattle.dex_ring.specs.Ring.{IsEventQueue, ring_of};
ghost use Rattle.dex_types.specs.Reasons as reasons;
ghost use Rattle.dex_types.specs.Side as book;

use crate::foreseeing::{OrderProspect, foresee_order};
use crate::order_input::{OrderInput, gathered};
use crate::order_plan::{Decided, OrderPlan};
use crate::order_refusals::{refused_early, sequence_of};
use crate::order_terms::Taker;
use dex_fills::{PendingFills, pending_fills, with_fills};
use dex_market::{MarketRef, RequestRef, Vaults};
use dex_orders::OrdersRef;
use dex_reasons::{beyond, no_room, short_by};
use dex_ring::RingRef;
use dex_types::{Refusal, Side, SideRead};

/// The vaults with the deposit of an order of the side: a bid's is quote, an ask's base.
fn vaults_after(market: &MarketRef<'_>, side: Side, deposit: u64) -> Vaults
    requires { IsMarket market.now.bytes.now }
    ensures coin { result.coin
        ≡ vault_of book.Coin (market_words market.now.bytes.now) + book.by_side side 0 deposit }
    ensures pc { result.pc ≡ vault_of book.Pc (market_words market.now.bytes.now) + book.by_side side deposit 0 }
    ensures coin_small { result.coin < 2 ^ 67 }
    ensures pc_small { result.pc < 2 ^ 67 }
{
    let vaults = market.vaults();
    let deposit = u128::from(deposit);
    match side {
        Side::Bid => Vaults {
            pc: vaults.pc + deposit,
            ..vaults
        },
        Side::Ask => Vaults {
            coin: vaults.coin + deposit,
            ..vaults
        },
    }
}

/// Why an order is refused by what it would do, apart from what the vaults would hold.
fn refused_late(foreseen: &OrderProspect, room: u32, balance: u64) -> Option<Refusal>
    ensures { result ≡ reasons.first_of (reasons.would_self_trade foreseen.now.aborts
        ∷ reasons.no_room foreseen.now.plan.needed room
        ∷ reasons.short_by foreseen.now.plan.deposit (Some balance) ∷ []) }
{
    would_self_trade(foreseen.aborts)
        .or(no_room(foreseen.plan.needed, room))
        .or(short_by(foreseen.plan.deposit, balance))
}

/// Why an order is refused by the vaults and what is to leave them, as they would be then.
fn refused_beyond(vaults: Vaults, pending: PendingFills) -> Option<Refusal>
    requires coin { vaults.coin + pending.coin < 2 ^ 128 }
    requires pc { vaults.pc + pending.pc < 2 ^ 128 }
    ensures { result ≡ reasons.first_of (reasons.beyond vaults.coin pending.coin
        ∷ reasons.beyond vaults.pc pending.pc ∷ []) }
{
    beyond(vaults.coin, pending.coin).or(beyond(vaults.pc, pending.pc))
}

/// What pending makers' fills are to take off totals: as it is known, or else by a pass over the queue.
fn fills_now(known: Option<PendingFills>, ring: &RingRef<'_>) -> PendingFills
    requires ring { IsEventQueue ring.now.bytes.now }
    requires known { IfSome known (λ sums. IsKnown sums (ring_of ring.now.bytes.now).events) }
    ensures { IsKnown result (ring_of ring.now.bytes.now).events }
{
    match known {
        Some(pending) => pending,
        None => pending_fills(ring),
    }
}

/// The order would meet an own one at which it has to abort.
fn would_self_trade(aborts: Option<u128>) -> Option<Refusal>
    ensures { result ≡ reasons.would_self_trade aborts }
{
    match aborts {
        None => None,
        Some(order) => Some(Refusal::WouldSelfTrade { order }),
    }
}

/// The reason as the answer, or else what was decided.
fn answered(reason: Option<Refusal>, decided: Decided) -> Result<Decided, Refusal>
    ensures { result ≡ reasons.answered reason decided }
{
    match reason {
        Some(why) => Err(why),
        None => Ok(decided),
    }
}

/// The plan alone.
fn plan_of(decided: Result<Decided, Refusal>) -> Result<OrderPlan, Refusal>
    ensures { (reason : Option Refusal) (d : Decided) → decided ≡ reasons.answered reason d
        → result ≡ reasons.answered reason d.plan }
{
    match decided {
        Ok(decided) => Ok(decided.plan),
        Err(why) => Err(why),
    }
}

/// What is decided, with the sums of what is pending where they are known.
fn decide_with<B: SideRead, A: SideRead>(
    known: Option<PendingFills>,
    input: &OrderInput<'_, B, A>,
    taker: &Taker,
    balance: u64,
) -> Result<Decided, Refusal>
    requires own { B.holds input.now.own.now }
    requires opposite { A.holds input.now.opposite.now }
    requires given { IsGiven taker.now.id_side taker.now.account (shown_in B.orders B.room A.orders input.now) }
    requires known { IfSome known (λ sums. IsKnown sums (ring_of input.now.ring.bytes.now).events) }
    ensures { result ≡ outcome_in taker.entry.now (shown_in B.orders B.room A.orders input.entry.now) balance }
{
    let taker = *taker;
    let OrderInput {
        market,
        requests,
        ring,
        orders,
        own,
        opposite,
    } = *input;
    let sizes = market.sizes();
    if let Some(why) = refused_early(sizes, taker, &requests, &orders) {
        return Err(why);
    }
    let foreseen = foresee_order(sizes, taker, sequence_of(&requests), own, opposite, &orders);
    if let Some(why) = refused_late(&foreseen, ring.room(), balance) {
        return Err(why);
    }
    let vaults = vaults_after(&market, taker.id_side, foreseen.plan.deposit);
    let pending = with_fills(fills_now(known, &ring), taker.id_side, sizes, foreseen.sums);
    let decided = Decided {
        plan: foreseen.plan,
        pending,
    };
    answered(refused_beyond(vaults, pending), decided)
}

/// What a new order of an open account does, or why it is refused; `own` is the order's side of the book, `opposite`
/// the one that it meets, and the balance that of the wallet which pays the deposit, a native amount. It reads only.
///
/// Refused are, in this order: an account without a free slot; an ask of 2^64 native base or more; any order once all
/// sequence numbers are given out; an order whose latest time is past; one that would have to abort at an own order;
/// one whose events are more than the free places of the event queue; one whose deposit is more than the balance; and
/// one that would leave a vault, with what pending makers' fills are still to take off totals, at 2^64 or more, base
/// before quote. Only for the last does it pass over the events that are pending.
///
/// The accounts are lent one by one, as `apply_order` has to take them. The program calls `decide_order_with_pending`.
pub fn decide_order<B: SideRead>(
    market: &MarketRef<'_>,
    requests: &RequestRef<'_>,
    own: &B,
    opposite: &B,
    ring: &RingRef<'_>,
    orders: &OrdersRef<'_>,
    taker: &Taker,
    balance: u64,
) -> Result<OrderPlan, Refusal>
    requires own { B.holds own.now }
    requires opposite { B.holds opposite.now }
    requires given { IsGiven taker.now.id_side taker.now.account
        (shown B.orders B.room B.orders market.now requests.now ring.now orders.now own.now opposite.now) }
    ensures { result ≡ decided_in taker.entry.now
        (shown B.orders B.room B.orders market.now requests.now ring.now orders.now own.now opposite.now) balance }
{
    let input = gathered(*market, *requests, *ring, *orders, own, opposite);
    plan_of(decide_with(None, &input, taker, balance))
}

/// What a new order does, or why it is refused, where the sums of pending makers' fills are known: no event is read.
/// The balance is that of the wallet which pays the deposit, a native amount. With the plan come these sums after the
/// order. The reasons are those of `decide_order`.
pub fn decide_order_with_pending<B: SideRead, A: SideRead>(
    input: &OrderInput<'_, B, A>,
    taker: &Taker,
    balance: u64,
    pending: &PendingFills,
) -> Result<Decided, Refusal>
    requires own { B.holds input.now.own.now }
    requires opposite { A.holds input.now.opposite.now }
    requires given { IsGiven taker.now.id_side taker.now.account (shown_in B.orders B.room A.orders input.now) }
    requires pending { pending.now ≡ pending_fills_of (ring_of input.now.ring.bytes.now).events }
    ensures { result ≡ outcome_in taker.entry.now (shown_in B.orders B.room A.orders input.entry.now) balance }
{
    decide_with(Some(*pending), input, taker, balance)
}
