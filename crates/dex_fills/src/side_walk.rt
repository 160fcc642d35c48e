//! What a taker would meet on a side of the book, without changing anything.

ghost use Rattle.std.specs.Prelude.{◌≡◌, ◌+◌, ◌∷◌, List, length};
ghost use Rattle.dex_fills.specs.Prospects.{FitsSums, IsForeseen, IsMet};
ghost use Rattle.dex_fills.specs.Taker.{taking, demand, met_by};
ghost use Rattle.dex_types.specs.declared.orders.Order.{Order};
ghost use Rattle.dex_types.specs.Meeting as meeting;
ghost use Rattle.dex_types.specs.Side as book;

use crate::met::{Met, met_after};
use crate::prices::{crosses, price_of};
use crate::taking::{aborts_at, is_own, taken};
use crate::wants::{MeetingTerms, Sums, Want};
use dex_types::{Order, Side, SideRead};

/// What a taker would meet: what it would still want with the sums of its fills, how many events there would be,
/// whether the best order left would still cross its limit price, and the id of the own order at which it would have to
/// abort.
#[derive(Clone, Copy)]
pub struct Prospect {
    pub met: Met,
    pub events: u32,
    pub crosses: bool,
    pub aborts: Option<u128>,
}

/// A taker that has met nothing.
pub(crate) fn unmet(want: Want) -> Met
    ensures { result ≡ record { want = want; sums = record { lots = 0; pc = 0; rebates = 0 } } }
{
    Met {
        want,
        sums: Sums {
            lots: 0,
            pc: 0,
            rebates: 0,
        },
    }
}

/// How many events an order that is met leaves where it loses these lots.
fn events_of(side: Side, taker: MeetingTerms, order: Order, lots: u64) -> u32
    ensures value { result ≡ length (meeting.met_events side (taking taker) order lots) }
{
    let _ = side;
    if is_own(taker.owner, order) || lots != order.lots {
        1
    } else {
        2
    }
}

/// The prospect of a taker that goes no further, with this best order left.
fn prospect_at(side: Side, taker: MeetingTerms, met: Met, events: u32, order: Order) -> Prospect
    ensures met { result.met ≡ met }
    ensures events { result.events ≡ events }
    ensures crosses { result.crosses ≡ book.crosses side taker.limit_price (book.price_of order.id) }
    ensures aborts { (others : List Order) → result.aborts
        ≡ meeting.aborts_at side (taking taker) (demand met.want) (order ∷ others) }
{
    Prospect {
        met,
        events,
        crosses: crosses(side, taker.limit_price, price_of(order.id)),
        aborts: aborts_at(side, taker, met.want, order),
    }
}

/// What a taker of the side would meet of the opposite side from the best order on.
pub fn foresee<B: SideRead>(side: Side, taker: MeetingTerms, want: Want, opposing: &B) -> Prospect
    requires holds { B.holds opposing.now }
    requires fits { FitsSums side taker.sizes (met_by side taker want (B.orders opposing.now)) }
    ensures { IsForeseen side taker.limit_price (met_by side taker want (B.orders opposing.now)) result }
{
    let mut met = unmet(want);
    let mut events = 0;
    let mut next = opposing.best();
    'orders: while let Some(order) = next {
        let lots = taken(side, taker, met.want, order);
        if lots == 0 {
            return prospect_at(side, taker, met, events, order);
        }
        events += events_of(side, taker, order, lots);
        met = met_after(side, taker, met, order, lots);
        if lots < order.lots {
            let left = Order {
                lots: order.lots - lots,
                ..order
            };
            return prospect_at(side, taker, met, events, left);
        }
        next = opposing.after(order.id);
    }
    Prospect {
        met,
        events,
        crosses: false,
        aborts: None,
    }
}
