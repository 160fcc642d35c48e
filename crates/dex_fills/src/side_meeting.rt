//! A taker meets a side of the book in place.

ghost use Rattle.std.specs.Prelude.{◌≡◌, ◌<◌, ◌^◌, length};
ghost use Rattle.dex_accounts.specs.Keeps.{KeepsEvents, KeepsSide};
ghost use Rattle.dex_laws.specs.Locks.{locked};
ghost use Rattle.dex_fills.specs.Prospects.{FitsSums, IsMet};
ghost use Rattle.dex_ring.specs.Appended.{appended, HasRoom, pushed_all};
ghost use Rattle.dex_fills.specs.Taker.{met_by};
ghost use Rattle.dex_ring.specs.Ring.{IsEventQueue, ring_of};
ghost use Rattle.dex_types.specs.Side.{opposite};

use crate::fills::fill_met;
use crate::met::{Met, met_with};
use crate::ring_events::push_met;
use crate::side_walk::unmet;
use crate::taking::taken;
use crate::wants::{MeetingTerms, Want};
use dex_ring::RingView;
use dex_types::{Side, SideBook};

/// A taker of the side meets the opposite side from the best order on. What it meets leaves the book or loses lots
/// there, and the events are appended to the queue.
pub fn meet_side<B: SideBook>(
    side: Side,
    taker: MeetingTerms,
    want: Want,
    opposing: &mut B,
    ring: &mut RingView<'_>,
) -> Met
    // What is met fits 64 bits, and the queue has room for its events.
    requires holds { B.holds opposing.old }
    requires accepted { IsEventQueue ring.old.bytes.now }
    requires counted { (ring_of ring.old.bytes.now).seq_num < 2 ^ 64 }
    requires fits { FitsSums side taker.sizes (met_by side taker want (B.orders opposing.old)) }
    requires room { HasRoom (length (met_by side taker want (B.orders opposing.old)).events)
        (ring_of ring.old.bytes.now) }
    requires locks { locked (opposite side) taker.sizes (B.orders opposing.old) < 2 ^ 64 }

    // The side, the sums and the queue are those of the definition's meeting.
    ensures met { IsMet (met_by side taker want (B.orders opposing.old)) result }
    ensures left { B.orders opposing.new ≡ (met_by side taker want (B.orders opposing.old)).left }
    ensures list { ring_of ring.new.bytes.now
        ≡ appended (met_by side taker want (B.orders opposing.old)).events (ring_of ring.old.bytes.now) }
    ensures bytes { ring.new.bytes.now ≡ pushed_all
        (met_by side taker want (B.orders opposing.old)).events ring.old.bytes.now }

    // Both stay where they lie.
    ensures queue { KeepsEvents ring.old ring.new }
    ensures side { KeepsSide B.holds B.same_place B.side B.room opposing.old opposing.new }
{
    let mut met = unmet(want);
    'orders: while let Some(order) = opposing.best() {
        let lots = taken(side, taker, met.want, order);
        if lots == 0 {
            return met;
        }
        let fill = fill_met(taker, order, lots);
        push_met(ring, side, taker, order, lots, fill);
        met = met_with(side, taker, met, order, lots, fill);
        if lots < order.lots {
            opposing.set_lots(order.id, order.lots - lots);
            return met;
        }
        opposing.remove(order.id);
    }
    met
}
