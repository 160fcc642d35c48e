//! New orders and takes leave a sound market.

ghost use Rattle.std.specs.Prelude.{◌≡◌, ◌≤◌, Some, None};
ghost use Rattle.dex_types.specs.declared.rows.Seen.{Seen};
ghost use Rattle.dex_types.specs.declared.terms.Side.{Side};
ghost use Rattle.dex_types.specs.Market.{Market, orders};
ghost use Rattle.dex_types.specs.NewOrder.{NewOrder, order_on, after_order};
ghost use Rattle.dex_types.specs.Requests.{Request, Party};
ghost use Rattle.dex_types.specs.Side.{opposite};
ghost use Rattle.dex_types.specs.Soundness.{IsSound};
ghost use Rattle.dex_types.specs.Take.{Take, take_meeting, after_take};
ghost use Rattle.dex_types.specs.Trader.{Open, trader_at};
ghost use Rattle.dex_types.specs.Why.{why_order_of, why_take};

/// A new order of an open account, at a price of at least 1, that is not refused leaves a sound market sound: it rests
/// in the slot that it takes, or its out waits there; each order that it met rests on, or ends once; the order that had
/// to leave a full side ends once; vaults hold what they have to after the deposit, all totals add up, and no sum
/// passes the bound.
pub fn a_new_order_leaves_a_sound_market()
    ensures { (side : Side) (n : NewOrder) (request : Request) (seen : Seen) (m : Market) (party : Party) →
        IsSound m → trader_at party.address m.traders ≡ Some (Open party.account) → n.owner ≡ party.address
        → 1 ≤ n.price →
        why_order_of side n request seen m party ≡ None →
        let ordering = order_on side m party.account n in IsSound (after_order side party.account n ordering m) }
{}

/// A take that is not refused leaves a sound market sound: each order that it met rests on, or ends once; vaults hold
/// what they have to after its payment and its payout, its makers' totals add up, and no sum passes the bound.
pub fn a_take_leaves_a_sound_market()
    ensures { (side : Side) (t : Take) (request : Request) (seen : Seen) (m : Market) →
        IsSound m → why_take side t request seen m ≡ None →
        let met = take_meeting side m.listing.sizes t (orders (opposite side) m) in IsSound (after_take side t met m) }
{}
