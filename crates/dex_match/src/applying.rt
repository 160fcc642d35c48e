//! A new order is done on the accounts' bytes, as it was decided.

ghost use Rattle.std.specs.Prelude.{◌≡◌, ◌≤◌, ◌<◌, ◌^◌};
ghost use Rattle.dex_types.specs.declared.replies.Reply.TheVariants as replies;
ghost use Rattle.dex_accounts.specs.Keeps.{KeepsSide};
ghost use Rattle.dex_match.specs.LentParts.{HasOrdered, given_in, handed};
ghost use Rattle.dex_match.specs.Ordering.{IsDecided};
ghost use Rattle.dex_match.specs.OrderParts.{IsGiven, parts_of};
ghost use Rattle.dex_match.specs.OrderTerms.{order_of};

use crate::intake::{intake_by, take_in};
use crate::order_plan::OrderPlan;
use crate::order_terms::Taker;
use crate::payment::{moves_by, pay};
use crate::trading::trade;
use dex_market::{MarketView, RequestView};
use dex_orders::OrdersView;
use dex_ring::RingView;
use dex_types::{Reply, SideBook};

/// What the plan's order is answered.
fn reply_by(plan: &OrderPlan) -> Reply
    ensures { result ≡ replies.Ordered plan.now.slot plan.now.id plan.now.lots plan.now.pc plan.now.fee
        plan.now.rested }
{
    Reply::Ordered {
        id: plan.id,
        slot: plan.slot,
        lots: plan.lots,
        pc: plan.pc,
        fee: plan.fee,
        rested: plan.rested,
    }
}

/// An order's lots and lock are below 2^64. No code: it comes by value, since after a reference no range is known.
pub fn amounts_fit(taker: Taker)
    ensures lots { taker.lots < 2 ^ 64 }
    ensures lock { taker.lock < 2 ^ 64 }
{}

/// Does a new order as it was decided. It meets the other side, and what it meets leaves the book or loses lots there;
/// what is left of it rests on its own side, where the last order of a full side leaves for it; all its events are
/// appended; the market gives out one more sequence number, and its words take in the deposit and the fee; and the
/// trader's account pays, gets what the fills bring in, and holds the order in its lowest free slot. It is answered by
/// its id, slot, fills and fee, and by the lots that rest. It is never refused. All other bytes of the market account,
/// the request queue and the trader's account stay.
///
/// It has eight arguments: the checker follows no record of lent views.
pub fn apply_order<B: SideBook, A: SideBook>(
    plan: &OrderPlan,
    taker: &Taker,
    market: &mut MarketView<'_>,
    requests: &mut RequestView<'_>,
    own: &mut B,
    opposite: &mut A,
    ring: &mut RingView<'_>,
    orders: &mut OrdersView<'_>,
) -> Reply
    requires own { B.holds own.old }
    requires opposite { A.holds opposite.old }
    requires side { B.side own.old ≡ taker.now.id_side }
    requires price { 1 ≤ taker.now.price }
    requires given { IsGiven taker.now.id_side taker.now.account (given_in
        (handed B.orders B.room A.orders market.old requests.old ring.old orders.old own.old opposite.old)) }
    requires decided { IsDecided plan.now taker.now.id_side (order_of taker.now) (parts_of (given_in
        (handed B.orders B.room A.orders market.old requests.old ring.old orders.old own.old opposite.old))) }
    ensures does { HasOrdered taker.entry.now result
        (handed B.orders B.room A.orders market.old requests.old ring.old orders.old own.old opposite.old)
        (handed B.orders B.room A.orders market.new requests.new ring.new orders.new own.new opposite.new) }
    ensures own { KeepsSide B.holds B.same_place B.side B.room own.old own.new }
    ensures opposite { KeepsSide A.holds A.same_place A.side A.room opposite.old opposite.new }
{
    let taker = *taker;
    amounts_fit(taker);
    let sizes = market.sizes();
    let rebates = trade(plan, sizes, taker, own, opposite, ring);
    requests.advance();
    take_in(intake_by(taker.id_side, plan, rebates), market);
    pay(plan, taker, moves_by(sizes, taker, plan), orders);
    reply_by(plan)
}
