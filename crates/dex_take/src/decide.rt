//! Whether a take is accepted, and what it does then.

ghost use Rattle.std.specs.Prelude.{◌≡◌, ◌<◌, ◌^◌, IfErr, IfOk, Option, Some};
ghost use Rattle.dex_market.specs.MarketAccount.{IsMarket};
ghost use Rattle.dex_ring.specs.PendingFills.{pending_fills_of};
ghost use Rattle.dex_ring.specs.Ring.{IsEventQueue, ring_of};
ghost use Rattle.dex_types.specs.declared.refusals.Refusal.{Refusal};
ghost use Rattle.dex_types.specs.Reasons.{answered};
ghost use Rattle.dex_take.specs.declared.plan.DecidedTake.{DecidedTake};
ghost use Rattle.dex_take.specs.TakeGiven.{IsOfSound, read_of, shown, shown_in};
ghost use Rattle.dex_take.specs.TakeTerms.{take_of};
ghost use Rattle.dex_take.specs.Taking.{IsBacked, IsForeseen, IsWithin, take_answer, take_outcome, take_reason};

use crate::outlook::{TakeOutlook, outlook};
use crate::plan::{DecidedTake, TakePlan};
use crate::reasons::{LeastFill, bound_reason, fill_reason};
use crate::take_input::{TakeInput, gathered};
use dex_fills::{pending_fills, with_fills};
use dex_market::MarketRef;
use dex_match::Taker;
use dex_reasons::ask_too_large;
use dex_ring::{PendingFills, RingRef};
use dex_types::{Refusal, Seen, SideRead};

/// What becomes of a take, where no reason before the bound is against it.
fn foreseen<B: SideRead>(
    input: &TakeInput<'_, B>,
    taker: Taker,
    least: LeastFill,
) -> Result<TakeOutlook, Refusal>
    requires holds { B.holds input.now.opposite.now }
    requires market { IsMarket input.now.market.bytes.now }
    requires events { IsEventQueue input.now.ring.bytes.now }
    requires backed { IsBacked taker.id_side (read_of (shown_in B.orders input.now)) }
    ensures outlook { IfOk result (IsForeseen taker.id_side (take_of taker least.lots least.pc)
        (read_of (shown_in B.orders input.now))) }
    ensures within { IfOk result (λ outlook. IsWithin taker.id_side (take_of taker least.lots least.pc)
        (read_of (shown_in B.orders input.now)) input.now.seen.now) }
    ensures refused { IfErr result (λ why. take_reason taker.id_side (take_of taker least.lots least.pc)
        (read_of (shown_in B.orders input.now)) input.now.seen.now ≡ Some why) }
{
    let sizes = input.market.sizes();
    if let Some(why) = ask_too_large(taker.id_side, sizes, taker.lots) {
        return Err(why);
    }
    let outlook = outlook(sizes, taker, input.opposite);
    match fill_reason(
        taker.id_side,
        &outlook,
        least,
        input.ring.room(),
        input.seen,
    ) {
        Some(why) => Err(why),
        None => Ok(outlook),
    }
}

/// What is decided of a take against which no reason before the bound holds, or the sum that would be too large; these
/// are the sums that pending makers' fills are still to take off totals.
fn bounded<B: SideRead>(
    input: &TakeInput<'_, B>,
    taker: Taker,
    least: LeastFill,
    outlook: &TakeOutlook,
    pending: PendingFills,
) -> Result<DecidedTake, Refusal>
    requires market { IsMarket input.now.market.bytes.now }
    requires backed { IsBacked taker.id_side (read_of (shown_in B.orders input.now)) }
    requires foreseen { IsForeseen taker.id_side (take_of taker least.lots least.pc)
        (read_of (shown_in B.orders input.now)) outlook.now }
    requires within { IsWithin taker.id_side (take_of taker least.lots least.pc)
        (read_of (shown_in B.orders input.now)) input.now.seen.now }
    requires pending { pending ≡ pending_fills_of (ring_of input.now.ring.bytes.now).events }
    requires coin_small { pending.coin < 2 ^ 80 }
    requires pc_small { pending.pc < 2 ^ 80 }
    ensures { result ≡ take_outcome taker.id_side (take_of taker least.lots least.pc)
        (read_of (shown_in B.orders input.now)) input.now.seen.now }
{
    let left = with_fills(pending, taker.id_side, input.market.sizes(), outlook.sums);
    match bound_reason(&input.market, taker.id_side, &outlook.plan, left) {
        Some(why) => Err(why),
        None => Ok(DecidedTake {
            plan: outlook.plan,
            pending: left,
        }),
    }
}

/// The plan alone.
fn plan_of(decided: Result<DecidedTake, Refusal>) -> Result<TakePlan, Refusal>
    ensures { (reason : Option Refusal) (d : DecidedTake) → decided ≡ answered reason d →
        result ≡ answered reason d.plan }
{
    match decided {
        Ok(decided) => Ok(decided.plan),
        Err(why) => Err(why),
    }
}

/// What a take does, or why it is refused. It reads only. `opposite` is the side that it meets, `min_lots` and `min_pc`
/// are what it has to fill at least, in base lots and in native quote with its fee, and `seen` are the row's wallets.
///
/// Refused are, in this order: an ask of 2^64 native base or more; a take that fills too few lots, or too little quote;
/// one with more events than the queue has free places; one whose paying wallet has less than it pays; one after which
/// the coin wallet, or the pc wallet, would hold 2^64 or more with all that it gets under its roles; one after which
/// the coin vault, or the pc vault, would be 2^64 or more with what pending makers' fills are then still to take off
/// totals. Only for this last reason all pending events are read.
///
/// The taker's account, client id, self-trade rule, order type and times are not looked at. The accounts are lent one
/// by one, as `apply_take` has to take them. The program calls `decide_take_with_pending`.
pub fn decide_take<B: SideRead>(
    market: &MarketRef<'_>,
    opposite: &B,
    ring: &RingRef<'_>,
    taker: &Taker,
    min_lots: u64,
    min_pc: u64,
    seen: &Seen,
) -> Result<TakePlan, Refusal>
    requires holds { B.holds opposite.now }
    requires parts { IsOfSound taker.now.id_side (shown B.orders market.now opposite.now ring.now) }
    ensures { result ≡ take_answer taker.entry.now.id_side (take_of taker.entry.now min_lots min_pc)
        (read_of (shown B.orders market.now opposite.now ring.now)) seen.now }
{
    let least = LeastFill {
        lots: min_lots,
        pc: min_pc,
    };
    let input = gathered(*market, opposite, *ring, seen);
    match foreseen(&input, *taker, least) {
        Err(why) => Err(why),
        Ok(outlook) => {
            let pending = pending_fills(ring);
            plan_of(bounded(&input, *taker, least, &outlook, pending))
        }
    }
}

/// What a take does, or why it is refused, where the sums of pending makers' fills are known, in native base and native
/// quote: no event is read. With the plan come these sums after the take. The reasons are those of `decide_take`.
pub fn decide_take_with_pending<B: SideRead>(
    input: &TakeInput<'_, B>,
    taker: &Taker,
    least: LeastFill,
    pending: &PendingFills,
) -> Result<DecidedTake, Refusal>
    requires holds { B.holds input.now.opposite.now }
    requires parts { IsOfSound taker.now.id_side (shown_in B.orders input.now) }
    requires pending { pending.now ≡ pending_fills_of (ring_of input.now.ring.bytes.now).events }
    ensures { result ≡ take_outcome taker.entry.now.id_side (take_of taker.entry.now least.lots least.pc)
        (read_of (shown_in B.orders input.entry.now)) input.entry.now.seen.now }
{
    match foreseen(input, *taker, least) {
        Err(why) => Err(why),
        Ok(outlook) => bounded(input, *taker, least, &outlook, *pending),
    }
}
