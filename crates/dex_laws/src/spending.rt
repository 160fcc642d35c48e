//! Laws of what a new order spends.

ghost use Rattle.std.specs.Prelude.{◌≡◌, ℕ, ◌+◌, ◌*◌, ◌≤◌, List, length};
ghost use Rattle.dex_types.specs.declared.orders.Order.{Order};
ghost use Rattle.dex_types.specs.declared.terms.Lots.{Lots};
ghost use Rattle.dex_types.specs.declared.terms.Side.{Side};
ghost use Rattle.dex_types.specs.Fees.{referrer_part};
ghost use Rattle.dex_types.specs.Market.{Market, orders};
ghost use Rattle.dex_types.specs.Meeting.{Meeting, meet};
ghost use Rattle.dex_types.specs.NewOrder.{NewOrder, full_lock, terms_of, demand_of, fee_of, spent, rested, order_on};
ghost use Rattle.dex_types.specs.Side.{opposite, lock};
ghost use Rattle.dex_types.specs.Trader.{Account};

/// The lock of a new order pays its fills, the fee with them, and what rests of it.
pub fn a_lock_pays_fills_and_rest()
    ensures fills { (side : Side) (sizes : Lots) (n : NewOrder) (orders : List Order) →
        let met = meet side (terms_of sizes n) (demand_of side sizes n) orders in
        spent side sizes n met ≤ full_lock side sizes n }
    ensures rest { (side : Side) (sizes : Lots) (n : NewOrder) (orders : List Order) →
        let met = meet side (terms_of sizes n) (demand_of side sizes n) orders in
        spent side sizes n met + lock side sizes n.price (rested side sizes n met) ≤ full_lock side sizes n }
{}

/// A taker's fee is part of what it traded, and covers the referrer's part and the makers' rebates.
pub fn a_fee_covers_what_is_paid_of_it()
    ensures of_quote { (n : NewOrder) (met : Meeting) → fee_of n met ≤ met.pc }
    ensures parts { (side : Side) (sizes : Lots) (n : NewOrder) (orders : List Order) →
        let met = meet side (terms_of sizes n) (demand_of side sizes n) orders in
        referrer_part (fee_of n met) + met.rebates ≤ fee_of n met }
{}

/// The events of a new order, and twice the orders that then rest on both sides, are at most four more than twice the
/// orders that rested before it.
pub fn a_new_order_gives_few_events()
    ensures { (side : Side) (m : Market) (account : Account) (n : NewOrder) →
        let o = order_on side m account n in
        length o.events + 2 * length o.met.left + 2 * length o.posting.side
        ≤ 2 * length (orders (opposite side) m) + 2 * length (orders side m) + 4 }
{}
