//! Laws of whom a taker meets: the best orders first, none past its limit price, and its own by the self-trade rule.

ghost use Rattle.std.specs.Prelude.{◌≡◌, ◌≢◌, ℕ, ◌+◌, ◌<◌, List, ◌∷◌, Some, All, true};
ghost use Rattle.dex_types.specs.declared.orders.Order.{Order};
ghost use Rattle.dex_types.specs.declared.terms.SelfTrade.TheVariants.{Decrement, CancelProvide, Abort};
ghost use Rattle.dex_types.specs.Posting.{InBookOrder};
ghost use Rattle.dex_types.specs.QueuedEvent.{QueuedEvent};
ghost use Rattle.dex_types.specs.Side.{opposite, price_of, crosses};
ghost use Rattle.dex_laws.specs.BestFirst.{IsBestFirst, FitsOwner};
ghost use Rattle.dex_laws.specs.BookOrder.{ComesBefore};
ghost use Rattle.dex_laws.specs.Fills.{LeavesNothingAs};
ghost use Rattle.dex_laws.specs.Meetings.{EachMeeting};
ghost use Rattle.dex_laws.specs.Moved.{own_lots, other_lots};
ghost use Rattle.dex_laws.specs.Stops.{StopsAt, AbortsAt};
ghost use Rattle.dex_types.specs.Totals.{total};

/// Of a side in book order the orders are met from the best on: no event is of an order that stands before that of an
/// earlier event, and no order is left that has a better price than one that was met, or its price and is older.
pub fn the_best_orders_are_met_first()
    ensures events { EachMeeting (λ side t w orders met.
        InBookOrder (opposite side) orders → IsBestFirst (opposite side) met.events) }
    ensures left { EachMeeting (λ side t w orders met. InBookOrder (opposite side) orders →
        All (λ (e : QueuedEvent).
        All (λ (o : Order). ¬ ComesBefore (opposite side) o.id e.id) met.left) met.events) }
{}

/// Each order that is met crosses the taker's limit price.
pub fn no_order_past_the_limit_is_met()
    ensures { EachMeeting (λ side t w orders met.
        All (λ (e : QueuedEvent). crosses side t.limit_price (price_of e.id) ≡ true) met.events) }
{}

/// A taker goes no further only where it wants no more lots, has no match left, the best order left does not cross, it
/// is post-only, it has to abort at an own order, or it is a bid that cannot pay one lot.
pub fn a_taker_goes_on_while_it_can()
    ensures { EachMeeting (λ side t w orders met.
        All (λ (o : Order). (0 < o.lots) × (0 < price_of o.id)) orders →
        (order : Order) (others : List Order) → met.left ≡ order ∷ others → StopsAt side t met.demand order) }
{}

/// No fill is against an order of the taker's own trader, and what a meeting releases is always of that trader.
pub fn no_trader_fills_its_own_order()
    ensures { EachMeeting (λ side t w orders met. All (FitsOwner t.owner) met.events) }
{}

/// The lots that fill are those that other traders' orders lose. Decrementing takes as many lots from the taker as from
/// its own orders; under the other rules own orders take none from it. Cancelling, an own order that is met leaves as a
/// whole; aborting, own orders lose nothing.
pub fn own_orders_go_by_the_self_trade_rule()
    ensures fills { EachMeeting (λ side t w orders met.
        let others = total (other_lots t.owner) in others orders ≡ others met.left + met.lots) }
    ensures decrement { EachMeeting (λ side t w orders met. t.self_trade ≡ Decrement →
        let own = total (own_lots t.owner) in met.lots + met.demand.lots + own orders ≡ w.lots + own met.left) }
    ensures others { EachMeeting (λ side t w orders met. t.self_trade ≢ Decrement →
        met.lots + met.demand.lots ≡ w.lots) }
    ensures cancel { EachMeeting (λ side t w orders met. t.self_trade ≡ CancelProvide →
        All (λ (e : QueuedEvent). LeavesNothingAs e.kind e) met.events) }
    ensures abort { EachMeeting (λ side t w orders met. t.self_trade ≡ Abort →
        let own = total (own_lots t.owner) in own met.left ≡ own orders) }
{}

/// An abort names the best order left, which is the taker's own and which it would have met.
pub fn an_abort_names_the_own_order()
    ensures { EachMeeting (λ side t w orders met. (order : Order) (others : List Order) (id : ℕ) →
        met.left ≡ order ∷ others → met.aborts ≡ Some id → AbortsAt side t met.demand order id) }
{}
