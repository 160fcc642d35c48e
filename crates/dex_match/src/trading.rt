//! A new order meets the other side of the book, and what is left of it rests on its own.

ghost use Rattle.std.specs.Prelude.{◌≡◌, ◌<◌, ◌≤◌, ◌^◌, ◌==◌, ◌∷◌, [], length, IfSome, if◌then◌else◌};
ghost use Rattle.dex_accounts.specs.Keeps.{KeepsEvents, KeepsSide};
ghost use Rattle.dex_laws.specs.Locks.{locked};
ghost use Rattle.dex_match.specs.Applying as applying;
ghost use Rattle.dex_match.specs.OrderTerms.{meeting_with, order_of};
ghost use Rattle.dex_fills.specs.Prospects.{FitsSums};
ghost use Rattle.dex_ring.specs.Appended.{appended, HasRoom, pushed_all};
ghost use Rattle.dex_ring.specs.Ring.{IsEventQueue, ring_of};
ghost use Rattle.dex_types.specs.BookSide.{CanRest, IsNewId};
ghost use Rattle.dex_types.specs.NewOrder as orders;
ghost use Rattle.dex_types.specs.Owed.{order_lock};
ghost use Rattle.dex_types.specs.Posting as posting;
ghost use Rattle.dex_types.specs.Side as book;

use crate::order_plan::OrderPlan;
use crate::order_terms::{Taker, terms_of, want_of};
use crate::payment::fill_amounts;
use dex_fees::tiers::tier_number;
use dex_fills::event_kinds::{EventAmounts, Kind};
use dex_fills::ring_events::{push, push_plain_out, push_releasing_out};
use dex_fills::{meet_side, post_or_boot};
use dex_ring::RingView;
use dex_types::{Lots, Order, Side, SideBook};

/// Meets the opposite side, appends the events, and answers the makers' rebates.
fn meet_opposite<A: SideBook>(
    sizes: Lots,
    taker: Taker,
    opposite: &mut A,
    ring: &mut RingView<'_>,
) -> u64
    // What is met fits 64 bits, and the queue has room for its events.
    requires holds { A.holds opposite.old }
    requires accepted { IsEventQueue ring.old.bytes.now }
    requires counted { (ring_of ring.old.bytes.now).seq_num < 2 ^ 64 }
    requires fits { FitsSums taker.id_side sizes (meeting_with sizes taker (A.orders opposite.old)) }
    requires room { HasRoom (length (meeting_with sizes taker (A.orders opposite.old)).events)
        (ring_of ring.old.bytes.now) }
    requires locks { locked (book.opposite taker.id_side) sizes (A.orders opposite.old) < 2 ^ 64 }

    // The opposite side and the rebates are those of the meeting.
    ensures rebates { result ≡ (meeting_with sizes taker (A.orders opposite.old)).rebates }
    ensures left { A.orders opposite.new ≡ (meeting_with sizes taker (A.orders opposite.old)).left }
    ensures side { KeepsSide A.holds A.same_place A.side A.room opposite.old opposite.new }

    // Its events stand behind those that waited.
    ensures list { ring_of ring.new.bytes.now ≡ appended (meeting_with sizes taker (A.orders opposite.old)).events
        (ring_of ring.old.bytes.now) }
    ensures bytes { ring.new.bytes.now ≡ pushed_all
        (meeting_with sizes taker (A.orders opposite.old)).events ring.old.bytes.now }
    ensures queue { KeepsEvents ring.old ring.new }
{
    let terms = terms_of(sizes, taker);
    let want = want_of(sizes, taker);
    let met = meet_side(taker.id_side, terms, want, opposite, ring);
    met.sums.rebates
}

/// The order of a plan as it rests.
fn order_by(plan: &OrderPlan, taker: Taker) -> Order
    ensures { result ≡ applying.order_by plan.now (order_of taker) }
{
    Order {
        id: plan.id,
        owner: taker.account,
        slot: plan.slot,
        tier: tier_number(taker.tier),
        lots: plan.rested,
        client: taker.client,
    }
}

/// Appends the one event of all fills of the order, where they have quote.
fn push_fills(ring: &mut RingView<'_>, side: Side, order: Order, pc: u64, amounts: EventAmounts)
    requires accepted { IsEventQueue ring.old.bytes.now }
    requires counted { (ring_of ring.old.bytes.now).seq_num < 2 ^ 64 }
    requires room { HasRoom (length (applying.fill_events side order pc amounts)) (ring_of ring.old.bytes.now) }
    requires slot { order.slot < 128 }
    requires tier { order.tier < 7 }
    ensures queue { KeepsEvents ring.old ring.new }
    ensures list { ring_of ring.new.bytes.now
        ≡ appended (applying.fill_events side order pc amounts) (ring_of ring.old.bytes.now) }
    ensures bytes { ring.new.bytes.now ≡ pushed_all (applying.fill_events side order pc amounts) ring.old.bytes.now }
{
    if pc != 0 {
        push(ring, Kind::TakerFill, side, order, amounts);
    }
}

/// Posts an order that has lots, and answers the one that had to leave for it.
fn post<B: SideBook>(book: &mut B, order: Order) -> Option<Order>
    // The order is a new one, on a side that can hold one.
    requires holds { B.holds book.old }
    requires new { IsNewId order.id (B.orders book.old) }
    requires can_rest { 1 ≤ order.lots → CanRest order }
    requires capacity { 1 ≤ B.room book.old }

    // The orders, and the one that left, are those of the definition's posting.
    ensures orders { B.orders book.new ≡ (posting.post (B.side book.old) (B.room book.old) order
        (B.orders book.old)).side }
    ensures booted { result ≡ (posting.post (B.side book.old) (B.room book.old) order (B.orders book.old)).booted }

    // Side, room and place stay.
    ensures holds { B.holds book.new }
    ensures side { B.side book.new ≡ B.side book.old }
    ensures room { B.room book.new ≡ B.room book.old }
    ensures place { B.same_place book.old book.new }
{
    if order.lots == 0 {
        return None;
    }
    post_or_boot(book, order)
}

/// Appends the last event of an order: that another had to leave for it, or that it is gone where it does not rest.
fn push_last(ring: &mut RingView<'_>, side: Side, sizes: Lots, order: Order, booted: Option<Order>)
    requires accepted { IsEventQueue ring.old.bytes.now }
    requires counted { (ring_of ring.old.bytes.now).seq_num < 2 ^ 64 }
    requires room { HasRoom (length (orders.last_events side sizes order booted)) (ring_of ring.old.bytes.now) }
    requires slot { order.slot < 128 }
    requires tier { order.tier < 7 }
    requires gone { IfSome booted (λ gone. applying.CanLeave side sizes gone) }
    ensures queue { KeepsEvents ring.old ring.new }
    ensures list { ring_of ring.new.bytes.now ≡ appended (orders.last_events side sizes order booted)
        (ring_of ring.old.bytes.now) }
    ensures bytes { ring.new.bytes.now ≡ pushed_all (orders.last_events side sizes order booted) ring.old.bytes.now }
{
    match booted {
        Some(gone) => push_releasing_out(ring, side, sizes, gone, gone.lots),
        None => {
            if order.lots == 0 {
                push_plain_out(ring, side, order);
            }
        }
    }
}

/// Posts what rests of an order, and appends the order's last event.
fn rest_or_end<B: SideBook>(
    sizes: Lots,
    side: Side,
    order: Order,
    own: &mut B,
    ring: &mut RingView<'_>,
)
    // The order can rest, and the queue has room for its last event.
    requires holds { B.holds own.old }
    requires side { B.side own.old ≡ side }
    requires posts { applying.CanPost side sizes order (B.room own.old) (B.orders own.old) }
    requires accepted { IsEventQueue ring.old.bytes.now }
    requires counted { (ring_of ring.old.bytes.now).seq_num < 2 ^ 64 }
    requires room { let ends = applying.end_events side sizes order (B.room own.old) (B.orders own.old) in
        HasRoom (length ends) (ring_of ring.old.bytes.now) }

    // The order rests where it has lots.
    ensures orders { B.orders own.new ≡ (posting.post side (B.room own.old) order (B.orders own.old)).side }
    ensures side { KeepsSide B.holds B.same_place B.side B.room own.old own.new }

    // Its last event stands behind those that waited.
    ensures list { let ends = applying.end_events side sizes order (B.room own.old) (B.orders own.old) in
        ring_of ring.new.bytes.now ≡ appended ends (ring_of ring.old.bytes.now) }
    ensures bytes { let ends = applying.end_events side sizes order (B.room own.old) (B.orders own.old) in
        ring.new.bytes.now ≡ pushed_all ends ring.old.bytes.now }
    ensures queue { KeepsEvents ring.old ring.new }
{
    let booted = post(own, order);
    push_last(ring, side, sizes, order, booted);
}

/// Meets the opposite side, appends the event of all fills, and lets the rest of the order rest or end. It answers the
/// makers' rebates.
pub(crate) fn trade<B: SideBook, A: SideBook>(
    plan: &OrderPlan,
    sizes: Lots,
    taker: Taker,
    own: &mut B,
    opposite: &mut A,
    ring: &mut RingView<'_>,
) -> u64
    // The plan can be done on both sides and the queue.
    requires own { B.holds own.old }
    requires opposite { A.holds opposite.old }
    requires side { B.side own.old ≡ taker.id_side }
    requires accepted { IsEventQueue ring.old.bytes.now }
    requires can_trade { applying.CanTrade taker.id_side sizes (order_of taker) plan.now (B.room own.old)
        (B.orders own.old) (A.orders opposite.old) (ring_of ring.old.bytes.now) }

    // The order has met the opposite side, and what is left of it rests on its own.
    ensures rebates { result ≡ (meeting_with sizes taker (A.orders opposite.old)).rebates }
    ensures own { B.orders own.new ≡ (applying.posted_by taker.id_side (order_of taker) plan.now (B.room own.old)
        (B.orders own.old)).side }
    ensures own_side { KeepsSide B.holds B.same_place B.side B.room own.old own.new }
    ensures opposite { A.orders opposite.new ≡ (meeting_with sizes taker (A.orders opposite.old)).left }
    ensures opposite_side { KeepsSide A.holds A.same_place A.side A.room opposite.old opposite.new }

    // All its events stand behind those that waited.
    ensures list { ring_of ring.new.bytes.now ≡ appended (applying.trade_events taker.id_side sizes
        (order_of taker) plan.now (B.room own.old) (B.orders own.old) (A.orders opposite.old))
        (ring_of ring.old.bytes.now) }
    ensures bytes { ring.new.bytes.now ≡ pushed_all (applying.trade_events taker.id_side sizes
        (order_of taker) plan.now (B.room own.old) (B.orders own.old) (A.orders opposite.old)) ring.old.bytes.now }
    ensures queue { KeepsEvents ring.old ring.new }
{
    let rebates = meet_opposite(sizes, taker, opposite, ring);
    let order = order_by(plan, taker);
    let amounts = fill_amounts(sizes, taker, plan);
    push_fills(ring, taker.id_side, order, plan.pc, amounts);
    rest_or_end(sizes, taker.id_side, order, own, ring);
    rebates
}
