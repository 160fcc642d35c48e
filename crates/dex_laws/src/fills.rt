//! Laws of single fills and releases.

ghost use Rattle.std.specs.Prelude.{All};
ghost use Rattle.dex_types.specs.QueuedEvent.{QueuedEvent};
ghost use Rattle.dex_types.specs.Side.{opposite};
ghost use Rattle.dex_laws.specs.Fills.{IsPricedByMaker, SplitsLockAs, IsWithinLimit};
ghost use Rattle.dex_laws.specs.Meetings.{EachMeeting};

/// Each fill is at the price of the maker's order, and its rebate is that of the tier that is stored with the order.
pub fn fills_are_at_the_makers_price()
    ensures { EachMeeting (λ side t w orders met. All (IsPricedByMaker t.program t.sizes) met.events) }
{}

/// A bid pays at most its limit price for all that it gets, and an ask gets at least its limit price for all that it
/// gives.
pub fn a_taker_trades_within_its_limit()
    ensures { EachMeeting (λ side t w orders met. IsWithinLimit side t.sizes t.limit_price met.lots met.pc) }
{}

/// What a release frees, and what it leaves locked, is together what its order locked before.
pub fn a_release_splits_what_its_order_locked()
    ensures { EachMeeting (λ side t w orders met.
        All (λ (e : QueuedEvent). SplitsLockAs e.kind (opposite side) t.sizes orders e) met.events) }
{}
