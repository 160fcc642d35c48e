ghost use Rattle.std.specs.Prelude.{◌≡◌, ◌∷◌, List};
ghost use Rattle.dex_types.specs.declared.orders.Order.{Order};
ghost use Rattle.dex_types.specs.Meeting as meeting;
ghost use Rattle.dex_fills.specs.Taker.{taking, demand};

use crate::prices::{crosses, price_of, quotient};
use crate::wants::{MeetingTerms, Want};
use dex_types::{Address, Order, OrderType, SelfTrade, Side, is_same};

/// The order is one of the taker's own trader.
pub fn is_own(owner: Option<Address>, order: Order) -> bool
    ensures { result ≡ meeting.is_own owner order }
{
    match owner {
        None => false,
        Some(owner) => is_same(owner, order.owner),
    }
}

fn is_post_only(order_type: OrderType) -> bool
    ensures { result ≡ meeting.is_post_only order_type }
{
    match order_type {
        OrderType::PostOnly => true,
        _ => false,
    }
}

/// The taker meets the best opposite order.
pub fn reaches(side: Side, taker: MeetingTerms, want: Want, order: Order) -> bool
    ensures { result ≡ meeting.reaches side (taking taker) (demand want) order }
{
    0 < want.matches
        && 0 < want.lots
        && crosses(side, taker.limit_price, price_of(order.id))
        && !is_post_only(taker.order_type)
}

/// The lots of an own order that leave the book, by the self-trade rule.
fn own_taken(rule: SelfTrade, want: Want, order: Order) -> u64
    ensures { result ≡ meeting.own_taken rule (demand want) order }
{
    match rule {
        SelfTrade::Decrement => order.lots.min(want.lots),
        SelfTrade::CancelProvide => order.lots,
        SelfTrade::Abort => 0,
    }
}

/// The lots that fill against another trader's order.
fn filled(side: Side, want: Want, order: Order) -> u64
    ensures { result ≡ meeting.filled side (demand want) order }
{
    let both = order.lots.min(want.lots);
    match side {
        Side::Bid => both.min(quotient(want.budget as u128, price_of(order.id) as u128) as u64),
        Side::Ask => both,
    }
}

/// The lots that the best opposite order loses; with 0 the meeting is over.
#[tactic(auto, unfolding(dex_types::specs::Meeting::taken))]
pub fn taken(side: Side, taker: MeetingTerms, want: Want, order: Order) -> u64
    ensures { result ≡ meeting.taken side (taking taker) (demand want) order }
{
    if !reaches(side, taker, want, order) {
        0
    } else if is_own(taker.owner, order) {
        own_taken(taker.self_trade, want, order)
    } else {
        filled(side, want, order)
    }
}

fn is_abort(rule: SelfTrade) -> bool
    ensures { result ≡ meeting.is_abort rule }
{
    match rule {
        SelfTrade::Abort => true,
        _ => false,
    }
}

/// The id of the order, where it is the best one left and the taker has to abort at it.
pub fn aborts_at(side: Side, taker: MeetingTerms, want: Want, order: Order) -> Option<u128>
    ensures { (others : List Order)
        → result ≡ meeting.aborts_at side (taking taker) (demand want) (order ∷ others) }
{
    if reaches(side, taker, want, order)
        && is_own(taker.owner, order)
        && is_abort(taker.self_trade)
    {
        Some(order.id)
    } else {
        None
    }
}
