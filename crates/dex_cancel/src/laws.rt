//! What a cancel leaves of a market, by the market's parts. A law is a function without a body, and its clauses are the
//! law.

ghost use Rattle.std.specs.Prelude.{◌≡◌, List};
ghost use Rattle.dex_types.specs.declared.addresses.Address.{Address};
ghost use Rattle.dex_types.specs.Cancel.{CancelBy, RestingOrder, after_cancels, cancelled};
ghost use Rattle.dex_types.specs.Market.{Market};
ghost use Rattle.dex_types.specs.Reasons.{event_room};
ghost use Rattle.dex_types.specs.Why.{why_cancelled, why_cancelling};
ghost use Rattle.dex_ring.specs.Ring.{IsEventQueue, ring_of};
ghost use Rattle.dex_accounts.specs.Parts.{AreOf, MarketParts};
ghost use Rattle.dex_cancel.specs.TakenOff.{queue_of, with_outs};
ghost use Rattle.dex_cancel.specs.Parts.{cancel_given, left_by, named_in, with_cancelled};

/// Why a cancel is refused in a market depends on its sides and the free places of its event queue alone, and the
/// orders that it names are those of the market's parts. The parts that they left are those of the market without them,
/// with their outs.
pub fn a_market_is_left_by_its_parts()
    ensures why { (by : CancelBy) (owner : Address) (m : Market)
        → why_cancelled by owner m ≡ why_cancelling by owner m.bids m.asks (event_room m) }
    ensures named { (by : CancelBy) (owner : Address) (parts : MarketParts) (m : Market) → AreOf parts m
        → named_in by owner (cancel_given parts) ≡ cancelled by owner m.bids m.asks }
    ensures left { (parts : MarketParts) (m : Market) (gone : List RestingOrder) → AreOf parts m →
        let left = left_by gone (cancel_given parts) in
        IsEventQueue left.queue → ring_of left.queue
        ≡ (with_outs (cancel_given parts).sizes gone (queue_of parts.events)).list
        → AreOf (with_cancelled left parts) (after_cancels gone m) }
{}
