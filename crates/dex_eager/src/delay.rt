//! Laws of histories: delay changes no trade.

ghost use Rattle.std.specs.Prelude.{◌≡◌, ℕ, pos, ◌+◌, ◌-ℤ◌, List, [], Some, None, take};
ghost use Rattle.dex_types.specs.declared.addresses.Address.{Address};
ghost use Rattle.dex_types.specs.Market.{Market};
ghost use Rattle.dex_types.specs.Side.{Token};
ghost use Rattle.dex_types.specs.Solvency.{own_locked};
ghost use Rattle.dex_types.specs.Soundness.{IsSound};
ghost use Rattle.dex_types.specs.Trader.{Trader, trader_at};
ghost use Rattle.dex_history.specs.Journal.{Call, IsLegal, market_after};
ghost use Rattle.dex_eager.specs.Eager.{eager_at, worth_at};
ghost use Rattle.dex_eager.specs.Histories.{counted, trades, eager_start, eager_end, eager_fills, fills_of, moves_of};
ghost use Rattle.dex_eager.specs.Slots.{without_slots};
ghost use Rattle.dex_eager.specs.Worth.{Ledger, free_in, worth_in, worth_of, takings_of};

/// However late cranks come, at each place of a history from a sound market the sides are, but for slots, those of the
/// market that pays at once, and so are the next sequence number, the fills of resting orders, what the market has
/// taken, and the worth of each account.
pub fn a_history_trades_as_one_that_pays_at_once()
    ensures places { (m : Market) (calls : List Call) (count : ℕ) → IsSound m → IsLegal m calls →
        let front = take count calls in eager_end m front ≡ eager_at (market_after m front) (moves_of m front) }
    ensures bids { (m : Market) (calls : List Call) → IsSound m → IsLegal m calls →
        without_slots (market_after m calls).bids ≡ (eager_end m calls).bids }
    ensures asks { (m : Market) (calls : List Call) → IsSound m → IsLegal m calls →
        without_slots (market_after m calls).asks ≡ (eager_end m calls).asks }
    ensures sequence { (m : Market) (calls : List Call) → IsSound m → IsLegal m calls →
        (market_after m calls).next_sequence ≡ (eager_end m calls).next_sequence }
    ensures fills { (m : Market) (calls : List Call) → IsSound m → IsLegal m calls →
        fills_of m calls ≡ eager_fills (eager_start m) (counted calls) }
    ensures takings { (m : Market) (calls : List Call) → IsSound m → IsLegal m calls →
        takings_of (market_after m calls) (moves_of m calls) ≡ (eager_end m calls).takings }
    ensures worth { (m : Market) (calls : List Call) (owner : Address) (trader : Trader)
        → IsSound m → IsLegal m calls →
        trader_at owner m.traders ≡ Some trader →
        worth_at owner (eager_end m calls).worths ≡ Some (worth_of owner (market_after m calls) (moves_of m calls)) }
    ensures no_account { (m : Market) (calls : List Call) (owner : Address) → IsSound m → IsLegal m calls →
        trader_at owner m.traders ≡ None → worth_at owner (eager_end m calls).worths ≡ None }
{}

/// Two histories of one sound market, in which the same rows but cranks are accepted in the same order, with the same
/// tiers and under the same program, leave the same sides but for slots, the same fills, the same takings, and each
/// account the same worth. Refused rows and cranks may stand anywhere. So it is at each two places up to which the same
/// rows were accepted.
pub fn delay_changes_no_trade()
    ensures places { (m : Market) (first second : List Call) (early late : ℕ) → IsSound m → IsLegal m first
        → IsLegal m second →
        let front = take early first in let other = take late second in
        trades front ≡ trades other → eager_at (market_after m front) (moves_of m front)
        ≡ eager_at (market_after m other) (moves_of m other) }
    ensures place_fills { (m : Market) (first second : List Call) (early late : ℕ) → IsSound m → IsLegal m first
        → IsLegal m second →
        let front = take early first in let other = take late second in
        trades front ≡ trades other → fills_of m front ≡ fills_of m other }
    ensures bids { (m : Market) (first second : List Call) → IsSound m → IsLegal m first → IsLegal m second
        → trades first ≡ trades second →
        without_slots (market_after m first).bids ≡ without_slots (market_after m second).bids }
    ensures asks { (m : Market) (first second : List Call) → IsSound m → IsLegal m first → IsLegal m second
        → trades first ≡ trades second →
        without_slots (market_after m first).asks ≡ without_slots (market_after m second).asks }
    ensures fills { (m : Market) (first second : List Call) → IsSound m → IsLegal m first → IsLegal m second
        → trades first ≡ trades second →
        fills_of m first ≡ fills_of m second }
    ensures takings { (m : Market) (first second : List Call) → IsSound m → IsLegal m first → IsLegal m second
        → trades first ≡ trades second →
        takings_of (market_after m first) (moves_of m first)
        ≡ takings_of (market_after m second) (moves_of m second) }
    ensures worth { (m : Market) (first second : List Call) (owner : Address) (trader : Trader) → IsSound m
        → IsLegal m first → IsLegal m second →
        trades first ≡ trades second → trader_at owner m.traders ≡ Some trader →
        worth_of owner (market_after m first) (moves_of m first)
        ≡ worth_of owner (market_after m second) (moves_of m second) }
{}

/// Once no event is pending, a worth is what is free and what resting orders lock, less what was deposited net of what
/// was settled.
pub fn once_drained_worth_is_funds_less_deposits()
    ensures { (token : Token) (owner : Address) (m : Market) (ledger : Ledger) → m.events ≡ [] →
        worth_in token owner m ledger
        ≡ pos (free_in token (trader_at owner m.traders) + own_locked token owner m) -ℤ
        (pos (ledger.deposited token owner) -ℤ pos (ledger.settled token owner)) }
{}
