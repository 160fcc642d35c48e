//! Laws of what a new order meets on a side of the book: each function does nothing, and its contract is the law.

ghost use Rattle.std.specs.Prelude.{◌<◌, ◌^◌};
ghost use Rattle.dex_laws.specs.Locks.{locked};
ghost use Rattle.dex_fills.specs.Prospects.{FitsSums};
ghost use Rattle.dex_types.specs.declared.terms.Side.{Side};
ghost use Rattle.dex_types.specs.Market.{Market, orders};
ghost use Rattle.dex_types.specs.NewOrder.{NewOrder, full_lock, meeting_of, standing_of};
ghost use Rattle.dex_types.specs.Side.{opposite};
ghost use Rattle.dex_types.specs.Soundness.{IsSound};

/// In a sound market what a new order meets fits 64 bits, where its lots and its lock do: what the opposite side locks
/// is in its vault, and the lock pays the fills with their fee, which covers the rebates. So a meeting's conditions can
/// be met.
pub fn what_a_new_order_meets_fits()
    ensures sums { (side : Side) (m : Market) (n : NewOrder) → IsSound m → n.lots < 2 ^ 64
        → full_lock side m.listing.sizes n < 2 ^ 64 →
        FitsSums side m.listing.sizes (meeting_of side (standing_of side m) n) }
    ensures locks { (side : Side) (m : Market) → IsSound m
        → locked (opposite side) m.listing.sizes (orders (opposite side) m) < 2 ^ 64 }
{}
