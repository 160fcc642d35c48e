//! No bid comes to cross an ask.

ghost use Rattle.std.specs.Prelude.{ℕ, List, take};
ghost use Rattle.dex_types.specs.declared.addresses.Address.{Address};
ghost use Rattle.dex_types.specs.declared.rows.Seen.{Seen};
ghost use Rattle.dex_types.specs.Market.{Listing, Market};
ghost use Rattle.dex_types.specs.Soundness.{IsSound};
ghost use Rattle.dex_sound.specs.Made.{CanMake, made_market};
ghost use Rattle.dex_history.specs.Crossing.{NoneCrosses, NoneNewCrosses};
ghost use Rattle.dex_history.specs.Journal.{Asked, Call, IsLegal, asked_step, market_after};

/// Where no bid of a sound market crosses an ask, none does at any place of any legal history from there: after its
/// first n calls, and after all. A market as it is made has no order, so in its histories none ever does.
pub fn no_bid_comes_to_cross_an_ask()
    ensures row { (asked : Asked) (seen : Seen) (m : Market) → IsSound m → NoneCrosses m
        → NoneCrosses (asked_step asked seen m).market }
    ensures places { (m : Market) (calls : List Call) (count : ℕ) → IsSound m → NoneCrosses m → IsLegal m calls
        → NoneCrosses (market_after m (take count calls)) }
    ensures end { (m : Market) (calls : List Call) → IsSound m → NoneCrosses m → IsLegal m calls
        → NoneCrosses (market_after m calls) }
    ensures made { (listing : Listing) (addresses : List Address) (calls : List Call) (count : ℕ)
        → CanMake listing addresses → IsLegal (made_market listing addresses) calls
        → NoneCrosses (market_after (made_market listing addresses) (take count calls)) }
{}

/// A market read from a dump may begin with bids that cross asks. Wherever a bid crosses an ask at a place of its
/// history, both rested at the start.
pub fn orders_that_cross_rested_before()
    ensures row { (asked : Asked) (seen : Seen) (m : Market) → IsSound m
        → NoneNewCrosses m (asked_step asked seen m).market }
    ensures places { (m : Market) (calls : List Call) (count : ℕ) → IsSound m → IsLegal m calls
        → NoneNewCrosses m (market_after m (take count calls)) }
    ensures end { (m : Market) (calls : List Call) → IsSound m → IsLegal m calls
        → NoneNewCrosses m (market_after m calls) }
{}
