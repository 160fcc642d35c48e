//! What becomes of a take, before anything is changed.

ghost use Rattle.std.specs.Prelude.{◌≡◌, ◌<◌, ◌^◌, None, length};
ghost use Rattle.dex_laws.specs.Locks.{locked};
ghost use Rattle.dex_fills.specs.Prospects.{FitsSums};
ghost use Rattle.dex_take.specs.TakeTerms.{bare_take, meeting_with};
ghost use Rattle.dex_take.specs.Taking.{plan_by};
ghost use Rattle.dex_types.specs.Reasons.{ask_too_large};
ghost use Rattle.dex_types.specs.Side.{opposite};

use crate::plan::{TakePlan, plan_of};
use crate::terms::{take_terms, want_of};
use dex_fees::taker_fee;
use dex_fills::{Sums, foresee};
use dex_match::Taker;
use dex_types::{Lots, SideRead};

/// What becomes of a take: its plan, the number of its makers' events, and the sums of its fills.
#[derive(Clone, Copy)]
pub(crate) struct TakeOutlook {
    pub(crate) plan: TakePlan,
    pub(crate) events: u32,
    pub(crate) sums: Sums,
}

/// What becomes of a take on an opposite side; of an ask the native base fits 64 bits.
pub(crate) fn outlook<B: SideRead>(sizes: Lots, taker: Taker, opposing: &B) -> TakeOutlook
    requires holds { B.holds opposing.now }
    requires base { ask_too_large taker.id_side sizes taker.lots ≡ None }
    requires locks { locked (opposite taker.id_side) sizes (B.orders opposing.now) < 2 ^ 64 }
    ensures plan { result.plan ≡ plan_by taker.id_side sizes (bare_take taker) (meeting_with sizes taker
        (B.orders opposing.now)) }
    ensures events { result.events ≡ length (meeting_with sizes taker (B.orders opposing.now)).events }
    ensures lots { result.sums.lots ≡ (meeting_with sizes taker (B.orders opposing.now)).lots }
    ensures pc { result.sums.pc ≡ (meeting_with sizes taker (B.orders opposing.now)).pc }
    ensures rebates { result.sums.rebates ≡ (meeting_with sizes taker (B.orders opposing.now)).rebates }
    ensures fits { FitsSums taker.id_side sizes (meeting_with sizes taker (B.orders opposing.now)) }
{
    let terms = take_terms(sizes, taker);
    let want = want_of(sizes, taker);
    let prospect = foresee(taker.id_side, terms, want, opposing);
    let sums = prospect.met.sums;
    let fee = taker_fee(taker.program, taker.tier, sums.pc);
    TakeOutlook {
        plan: plan_of(taker.id_side, sizes, sums, fee),
        events: prospect.events,
        sums,
    }
}
