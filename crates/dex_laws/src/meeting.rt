//! Laws of meeting the opposite side: what a taker spends, what orders lose, and what the events tell.

ghost use Rattle.std.specs.Prelude.{◌≡◌, ℕ, ◌+◌, ◌-◌, ◌*◌, ◌≤◌, ◌<◌, List, ◌∷◌, All, nat_lt, if◌then◌else◌, length, map, drop};
ghost use Rattle.dex_types.specs.declared.addresses.Address.{Address};
ghost use Rattle.dex_types.specs.declared.orders.Order.{Order};
ghost use Rattle.dex_types.specs.declared.terms.Side.{Side};
ghost use Rattle.dex_types.specs.declared.terms.Side.TheVariants.{Bid, Ask};
ghost use Rattle.dex_types.specs.Meeting.{TakerTerms, Demand, less, taken, demand_after, met_none, met_first, meet};
ghost use Rattle.dex_types.specs.Posting.{InBookOrder};
ghost use Rattle.dex_types.specs.Side.{opposite};
ghost use Rattle.dex_fees.specs.Rates.{greatest_maker_rate};
ghost use Rattle.dex_laws.specs.Fits.{EventFits, IsOfOneOf};
ghost use Rattle.dex_types.specs.Owed.{order_lock, is_order_of, is_event_of};
ghost use Rattle.dex_laws.specs.Locks.{locked, unlocked, let_go};
ghost use Rattle.dex_types.specs.Totals.{weighed_where};
ghost use Rattle.dex_laws.specs.Meetings.{EachMeeting};
ghost use Rattle.dex_laws.specs.Moved.{filled_coin, filled_pc, filled_rebate, meets_one, moved};
ghost use Rattle.dex_laws.specs.Remaining.{IsLeftOf};
ghost use Rattle.dex_types.specs.Totals.{total};

/// A taker fills no more lots than it wants. Each order that it meets has one event that counts it, and uses one match.
pub fn a_taker_stays_within_its_demand()
    ensures lots { EachMeeting (λ side t w orders met. met.lots + met.demand.lots ≤ w.lots) }
    ensures matches { EachMeeting (λ side t w orders met.
        total meets_one met.events + met.demand.matches ≡ w.matches) }
{}

/// What a bid trades is what its budget loses; an ask spends none.
pub fn a_bid_stays_within_its_budget()
    ensures bid { (t : TakerTerms) (w : Demand) (orders : List Order) →
        let met = meet Bid t w orders in
        met.pc + met.demand.budget * t.sizes.pc ≡ w.budget * t.sizes.pc }
    ensures ask { (t : TakerTerms) (w : Demand) (orders : List Order) →
        (meet Ask t w orders).demand.budget ≡ w.budget }
{}

/// The makers' rebates are at most their greatest rate of what was traded.
pub fn rebates_are_part_of_what_was_traded()
    ensures { EachMeeting (λ side t w orders met.
        10000 * met.rebates ≤ greatest_maker_rate t.program * met.pc) }
{}

/// What the orders of the side lock is locked still, or a fill took it, or an out released it: for all orders by the
/// amount that the meeting reports, and for those of each owner by the events alone.
pub fn what_moves_was_locked()
    ensures moved { EachMeeting (λ side t w orders met.
        let locks = locked (opposite side) t.sizes in
        locks orders
        ≡ locks met.left + moved side t.sizes met + total (let_go (opposite side)) met.events) }
    ensures all { EachMeeting (λ side t w orders met.
        let locks = locked (opposite side) t.sizes in
        locks orders ≡ locks met.left + total (unlocked (opposite side)) met.events) }
    ensures of_each_owner { (owner : Address) → EachMeeting (λ side t w orders met.
        let locks = weighed_where (is_order_of owner) (order_lock (opposite side) t.sizes) in
        let told = weighed_where (is_event_of owner) (unlocked (opposite side)) in
        total locks orders ≡ total locks met.left + total told met.events) }
{}

/// What a meeting reports is what its fills moved: base, quote and rebates.
pub fn what_is_reported_is_what_moved()
    ensures base { EachMeeting (λ side t w orders met.
        met.lots * t.sizes.coin ≡ total filled_coin met.events) }
    ensures quote { EachMeeting (λ side t w orders met. met.pc ≡ total filled_pc met.events) }
    ensures rebates { EachMeeting (λ side t w orders met. met.rebates ≡ total filled_rebate met.events) }
{}

/// Orders leave a side from its front, and only the first that stays may have lost a part of its lots. So the side
/// stays in book order, the ids that are left are the last of those that were there, and no order is left without lots.
pub fn the_side_is_met_from_its_front()
    ensures left { EachMeeting (λ side t w orders met. IsLeftOf met.left orders) }
    ensures in_order { EachMeeting (λ side t w orders met.
        InBookOrder (opposite side) orders → InBookOrder (opposite side) met.left) }
    ensures ids { EachMeeting (λ side t w orders met.
        let ids = map (λ (o : Order). o.id) in
        ids met.left ≡ drop (length orders - length met.left) (ids orders)) }
    ensures lots_stay { EachMeeting (λ side t w orders met.
        All (λ (o : Order). 0 < o.lots) orders → All (λ (o : Order). 0 < o.lots) met.left) }
{}

/// An order that is met gives at most two events, and one where lots of it are left. So the events are at most twice
/// the orders that left, and one more; and at most twice the matches that were used.
pub fn an_order_gives_at_most_two_events()
    ensures of_orders { EachMeeting (λ side t w orders met.
        length met.events + 2 * length met.left ≤ 2 * length orders + 1) }
    ensures of_matches { EachMeeting (λ side t w orders met.
        length met.events + 2 * met.demand.matches ≤ 2 * w.matches) }
{}

/// A meeting is the recursion in which the best order loses what is taken of it and the taker goes on with what is left
/// of the side; and at its end, meeting what is left once more does nothing.
pub fn a_meeting_goes_on_until_nothing_is_taken()
    ensures recursion { (side : Side) (t : TakerTerms) (w : Demand) (order : Order) (others : List Order) →
        let lots = taken side t w order in
        let left = if nat_lt lots order.lots then less order lots ∷ others else others in
        0 < lots → meet side t w (order ∷ others)
        ≡ met_first side t order lots (meet side t (demand_after side t w order lots) left) }
    ensures ends { EachMeeting (λ side t w orders met.
        meet side t met.demand met.left ≡ met_none side t met.demand met.left) }
{}

/// No amount of an event is above a bound of what the meeting trades and of what the side locked; and each event has
/// the id, owner, slot, tier and client id of an order that stood there.
pub fn events_fit_what_was_traded_and_locked()
    ensures amounts { (bound : ℕ) → EachMeeting (λ side t w orders met.
        met.pc + met.rebates ≤ bound → met.lots * t.sizes.coin ≤ bound →
        locked (opposite side) t.sizes orders ≤ bound → All (EventFits bound) met.events) }
    ensures words { EachMeeting (λ side t w orders met. All (IsOfOneOf orders) met.events) }
{}
