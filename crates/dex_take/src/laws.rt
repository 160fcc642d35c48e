//! What a take decides and does by the parts that it is given is what it decides and does on their market.

ghost use Rattle.std.specs.Prelude.{◌≡◌, ℕ};
ghost use Rattle.dex_accounts.specs.Parts.{AreOf, MarketParts};
ghost use Rattle.dex_match.specs.declared.order_terms.Taker.{Taker};
ghost use Rattle.dex_take.specs.declared.plan.TakePlan.{TakePlan};
ghost use Rattle.dex_take.specs.Taken.{IsDone, met_in, reply_in};
ghost use Rattle.dex_take.specs.TakeGiven.{TakeGiven, read_of, take_given, with_taken};
ghost use Rattle.dex_take.specs.TakeTerms.{take_of};
ghost use Rattle.dex_take.specs.Taking.{meeting_in, take_reason};
ghost use Rattle.dex_types.specs.declared.rows.Seen.{Seen};
ghost use Rattle.dex_types.specs.declared.terms.Side.{Side};
ghost use Rattle.dex_types.specs.Market.{Market, orders};
ghost use Rattle.dex_types.specs.Side.{opposite};
ghost use Rattle.dex_types.specs.Soundness.{IsSound};
ghost use Rattle.dex_types.specs.Take.{Take, after_take, take_meeting, take_reply};
ghost use Rattle.dex_types.specs.Why.{take_reading, why_taking};

/// By the parts of a sound market a take meets what it meets on the market, and is refused for the reason for which the
/// market refuses it, once its wallets and its signer have passed.
pub fn what_is_decided_is_the_markets()
    ensures meeting { (side : Side) (t : Take) (parts : MarketParts) (m : Market) → AreOf parts m →
        meeting_in side t (read_of (take_given side parts)) ≡ take_meeting side m.listing.sizes t (orders
        (opposite side) m) }
    ensures reason { (side : Side) (t : Take) (parts : MarketParts) (m : Market) (seen : Seen) → IsSound m →
        AreOf parts m →
        take_reason side t (read_of (take_given side parts)) seen
        ≡ why_taking side t seen (take_reading side t seen m) }
{}

/// With what a take left put back, the parts of a sound market are those of the market after it, whatever its least
/// fill; and its reply is the market's.
pub fn a_take_leaves_the_market_after_it()
    ensures after { (plan : TakePlan) (taker : Taker) (min_lots min_pc : ℕ) (parts : MarketParts)
        (left : TakeGiven) (m : Market) →
        IsSound m → AreOf parts m → IsDone plan taker (take_given taker.id_side parts) left →
        let t = take_of taker min_lots min_pc in AreOf (with_taken taker.id_side left parts)
        (after_take taker.id_side t (take_meeting taker.id_side m.listing.sizes t (orders
        (opposite taker.id_side) m)) m) }
    ensures reply { (taker : Taker) (min_lots min_pc : ℕ) (parts : MarketParts) (m : Market) → AreOf parts m →
        let t = take_of taker min_lots min_pc in reply_in taker (take_given taker.id_side parts)
        ≡ take_reply t (take_meeting taker.id_side m.listing.sizes t (orders (opposite taker.id_side) m)) }
{}
