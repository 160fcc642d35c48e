//! The events of a meeting, appended to an event queue.

ghost use Rattle.std.specs.Prelude.{◌≡◌, ◌+◌, ◌*◌, ◌^◌, ◌<◌, ◌≤◌, ◌∷◌, [], length, ◌-◌, ◌==◌, if◌then◌else◌};
ghost use Rattle.dex_accounts.specs.Keeps.{KeepsEvents};
ghost use Rattle.dex_fills.specs.EventKinds.{event_with, filled_events};
ghost use Rattle.dex_ring.specs.Appended.{appended, HasRoom, pushed_all};
ghost use Rattle.dex_fills.specs.Taker.{fill_met, taking};
ghost use Rattle.dex_ring.specs.EventBytes.{IsQueued};
ghost use Rattle.dex_ring.specs.Ring.{IsEventQueue, ring_of};
ghost use Rattle.dex_types.specs.Meeting as meeting;
ghost use Rattle.dex_types.specs.QueuedEvent.{decoded_event, encoded_event};
ghost use Rattle.dex_types.specs.Side as book;

use crate::event_kinds::{EventAmounts, Kind, flags};
use crate::fills::{Fill, lock, maker_amounts};
use crate::prices::price_of;
use crate::taking::is_own;
use crate::wants::MeetingTerms;
use dex_ring::RingView;
use dex_types::{Event, Lots, Order, Side};

/// An event of an order of the side, as the queue holds it.
fn event(kind: Kind, side: Side, order: Order, amounts: EventAmounts) -> Event
    requires slot { order.slot < 128 }
    requires tier { order.tier < 7 }
    ensures event { decoded_event result ≡ event_with kind side order amounts }
    ensures encoded { result ≡ encoded_event (event_with kind side order amounts) }
    ensures queued { IsQueued result }
{
    Event {
        flags: flags(kind, side),
        slot: order.slot,
        tier: order.tier,
        released: amounts.released,
        paid: amounts.paid,
        fee_or_rebate: amounts.fee_or_rebate,
        id: order.id,
        owner: order.owner,
        client: order.client,
    }
}

/// Appends an event of an order of the side.
pub fn push(ring: &mut RingView<'_>, kind: Kind, side: Side, order: Order, amounts: EventAmounts)
    requires accepted { IsEventQueue ring.old.bytes.now }
    requires room { HasRoom 1 (ring_of ring.old.bytes.now) }
    requires slot { order.slot < 128 }
    requires tier { order.tier < 7 }
    ensures queue { KeepsEvents ring.old ring.new }
    ensures list { ring_of ring.new.bytes.now
        ≡ appended (event_with kind side order amounts ∷ []) (ring_of ring.old.bytes.now) }
    ensures bytes { ring.new.bytes.now ≡ pushed_all (event_with kind side order amounts ∷ []) ring.old.bytes.now }
{
    let event = event(kind, side, order, amounts);
    ring.push(&event);
}

/// Appends that an order is gone and releases nothing.
pub fn push_plain_out(ring: &mut RingView<'_>, side: Side, order: Order)
    requires accepted { IsEventQueue ring.old.bytes.now }
    requires room { HasRoom 1 (ring_of ring.old.bytes.now) }
    requires slot { order.slot < 128 }
    requires tier { order.tier < 7 }
    ensures queue { KeepsEvents ring.old ring.new }
    ensures list { ring_of ring.new.bytes.now
        ≡ appended (meeting.plain_out side order ∷ []) (ring_of ring.old.bytes.now) }
    ensures bytes { ring.new.bytes.now ≡ pushed_all (meeting.plain_out side order ∷ []) ring.old.bytes.now }
{
    push(
        ring,
        Kind::PlainOut,
        side,
        order,
        EventAmounts {
            released: 0,
            paid: 0,
            fee_or_rebate: 0,
        },
    );
}

/// Appends that an order loses lots and releases what they locked.
pub fn push_releasing_out(ring: &mut RingView<'_>, side: Side, sizes: Lots, order: Order, lots: u64)
    requires accepted { IsEventQueue ring.old.bytes.now }
    requires room { HasRoom 1 (ring_of ring.old.bytes.now) }
    requires slot { order.slot < 128 }
    requires tier { order.tier < 7 }
    requires of_order { lots ≤ order.lots }
    requires fits { book.lock side sizes (book.price_of order.id) order.lots < 2 ^ 64 }
    ensures queue { KeepsEvents ring.old ring.new }
    ensures list { ring_of ring.new.bytes.now
        ≡ appended (meeting.releasing_out side sizes order lots ∷ []) (ring_of ring.old.bytes.now) }
    ensures bytes { ring.new.bytes.now ≡ pushed_all
        (meeting.releasing_out side sizes order lots ∷ []) ring.old.bytes.now }
{
    let price = price_of(order.id);
    let amounts = EventAmounts {
        released: lock(side, sizes, price, lots),
        paid: lock(side, sizes, price, order.lots - lots),
        fee_or_rebate: 0,
    };
    push(ring, Kind::ReleasingOut, side, order, amounts);
}

/// Appends the fill of an order that was met, with these amounts, and, where that emptied it, its out.
fn push_fill(ring: &mut RingView<'_>, side: Side, order: Order, lots: u64, amounts: EventAmounts)
    requires accepted { IsEventQueue ring.old.bytes.now }
    requires room { HasRoom (length (filled_events side order lots amounts)) (ring_of ring.old.bytes.now) }
    requires slot { order.slot < 128 }
    requires tier { order.tier < 7 }
    ensures queue { KeepsEvents ring.old ring.new }
    ensures list { ring_of ring.new.bytes.now
        ≡ appended (filled_events side order lots amounts) (ring_of ring.old.bytes.now) }
    ensures bytes { ring.new.bytes.now ≡ pushed_all (filled_events side order lots amounts) ring.old.bytes.now }
{
    push(ring, Kind::MakerFill, side, order, amounts);
    if lots == order.lots {
        push_plain_out(ring, side, order);
    }
}

/// Appends the events of one order that was met and lost these lots by this fill.
pub(crate) fn push_met(
    ring: &mut RingView<'_>,
    side: Side,
    taker: MeetingTerms,
    order: Order,
    lots: u64,
    fill: Fill,
)
    // The queue has room for the events of an order that had these lots and more.
    requires accepted { IsEventQueue ring.old.bytes.now }
    requires room { HasRoom (length (meeting.met_events side (taking taker) order lots)) (ring_of ring.old.bytes.now) }
    requires slot { order.slot < 128 }
    requires tier { order.tier < 7 }
    requires of_order { lots ≤ order.lots }

    // The fill is the order's, and its amounts fit 64 bits.
    requires fill { fill ≡ fill_met taker order lots }
    requires small { fill.rebate ≤ fill.pc }
    requires received { side ≡ Side.Bid → fill.pc + fill.rebate < 2 ^ 64 }
    requires locks { book.lock (book.opposite side) taker.sizes (book.price_of order.id) order.lots < 2 ^ 64 }

    // They stand behind those that waited.
    ensures queue { KeepsEvents ring.old ring.new }
    ensures list { ring_of ring.new.bytes.now
        ≡ appended (meeting.met_events side (taking taker) order lots) (ring_of ring.old.bytes.now) }
    ensures bytes { ring.new.bytes.now ≡ pushed_all
        (meeting.met_events side (taking taker) order lots) ring.old.bytes.now }
{
    let maker = side.opposite();
    if is_own(taker.owner, order) {
        push_releasing_out(ring, maker, taker.sizes, order, lots);
    } else {
        push_fill(ring, maker, order, lots, maker_amounts(maker, fill));
    }
}
