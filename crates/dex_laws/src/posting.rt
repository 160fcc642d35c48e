//! Laws of posting an order on its own side.

ghost use Rattle.std.specs.Prelude.{◌≡◌, ◌≢◌, ℕ, ◌+◌, ◌≤◌, ◌<◌, ◌↔◌, ◌==◌, List, ◌∷◌, ◌++◌, None, All, length, insert, if◌then◌else◌};
ghost use Rattle.dex_types.specs.declared.orders.Order.{Order};
ghost use Rattle.dex_types.specs.declared.terms.Side.{Side};
ghost use Rattle.dex_types.specs.Posting.{InBookOrder, posted};
ghost use Rattle.dex_laws.specs.Posted.{place_of, weight_of, EachPosting};
ghost use Rattle.dex_types.specs.Totals.{total};

/// An order is put in its place, after those that stand before it; where its id is new the side stays in book order.
pub fn a_posted_order_stands_in_its_place()
    ensures in_order { (side : Side) (order : Order) (orders : List Order) →
        All (λ (o : Order). o.id ≢ order.id) orders →
        InBookOrder side orders → InBookOrder side (posted side order orders) }
    ensures place { (side : Side) (order : Order) (orders : List Order) →
        posted side order orders ≡ insert orders (place_of side order.id orders) order }
    ensures one_more { (side : Side) (order : Order) (orders : List Order) →
        length (posted side order orders) ≡ length orders + 1 }
    ensures weight { (weight : Order → ℕ) (side : Side) (order : Order) (orders : List Order) →
        total weight (posted side order orders) ≡ weight order + total weight orders }
{}

/// Posting keeps the side in book order and within its room. An order leaves for another exactly where one with lots is
/// posted on a full side; what is left, with what leaves, is what stood and what was posted.
pub fn a_full_side_gives_up_one_order()
    ensures in_order { EachPosting (λ side room order orders posting.
        All (λ (o : Order). o.id ≢ order.id) orders →
        InBookOrder side orders → InBookOrder side posting.side) }
    ensures room { EachPosting (λ side room order orders posting.
        length orders ≤ room → length posting.side ≤ room) }
    ensures boots { EachPosting (λ side room order orders posting.
        (posting.booted ≢ None) ↔ ((0 < order.lots) × (room ≤ length orders))) }
    ensures weight { (weight : Order → ℕ) → EachPosting (λ side room order orders posting.
        total weight posting.side + weight_of weight posting.booted
        ≡ total weight orders + (if order.lots == 0 then 0 else weight order)) }
{}

/// A side in book order stays so where one order leaves, and no other order has that one's id.
pub fn an_order_leaves_a_side_in_order()
    ensures in_order { (side : Side) (before : List Order) (order : Order) (after : List Order) →
        InBookOrder side (before ++ order ∷ after) → InBookOrder side (before ++ after) }
    ensures apart { (side : Side) (before : List Order) (order : Order) (after : List Order) →
        InBookOrder side (before ++ order ∷ after) →
        All (λ (o : Order). o.id ≢ order.id) (before ++ after) }
{}
