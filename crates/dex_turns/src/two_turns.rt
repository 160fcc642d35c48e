//! The turns of two markets: both waited for, and left.

ghost use Rattle.std.specs.Prelude.{◌≡◌, ◌<◌, length, slice_index_or, slice_set};
ghost use Rattle.dex_journals.specs.Journals.{market_calls};
ghost use Rattle.dex_turns.specs.Bank.{MarketGate};
ghost use Rattle.dex_turns.specs.Seats.{MarketPass};
ghost use Rattle.dex_turns.specs.Submitted.{Where};
ghost use Rattle.dex_turns.specs.TwoTurns.{HaveTaken};
ghost use Rattle.dex_turns.specs.Turns.{AreIdle, HasSeenAt, IsBelow, IsHomeAt, MayLeaveAt, left_with};

use crate::bank::Bank;
use crate::legs::TwoMarkets;
use crate::turns::take_at;
use dex_gate::{Away, Gate, Pass};
use dex_journals::BankMarket;
use dex_stamps::Stamp;
use std::sync::Wait;

/// The markets of two legs, what stays behind of their turns, and a stamp that none of theirs is above.
pub(crate) struct TwoTurns {
    pub(crate) markets: TwoMarkets,
    pub(crate) first: Away<BankMarket>,
    pub(crate) second: Away<BankMarket>,
    pub(crate) stamp: Stamp,
}

/// A market's gate, and its place among all.
#[derive(Clone, Copy)]
pub(crate) struct Entrance<'a> {
    pub(crate) gate: &'a Gate<BankMarket>,
    pub(crate) place: usize,
}

impl<'a> Entrance<'a> {
    /// That of the market at a place.
    pub(crate) fn at(bank: &'a Bank, place: u16) -> Entrance<'a>
        requires { place < length bank.now.markets }
        ensures gate { (default : MarketGate) → result.gate.now ≡ slice_index_or bank.now.markets result.place default }
        ensures place { result.place ≡ place }
    {
        let place = place as usize;
        Entrance {
            gate: bank.market_gate(place),
            place,
        }
    }
}

/// Waits for the turns of two markets, the lower address first, and takes them out. The lane has no turn of a market.
fn take_rising<R: Wait>(
    rt: &R,
    lower: Entrance<'_>,
    higher: Entrance<'_>,
    passes: &mut Vec<Pass<BankMarket>>,
    last: &Stamp,
) -> TwoTurns
    requires order { IsBelow lower.gate.now higher.gate.now }
    requires idle { AreIdle passes.old.items }
    requires apart { lower.place ≡ higher.place → ⊥ }
    requires home { IsHomeAt lower.gate.now lower.place passes.old.items }
    requires home_next { IsHomeAt higher.gate.now higher.place passes.old.items }
    ensures { HaveTaken lower.entry.gate.now higher.entry.gate.now lower.entry.place higher.entry.place
        passes.old.items passes.new.items last.now.number result }
{
    let (market, away, stamp) = take_at(rt, lower.gate, passes, lower.place, last);
    let (market_next, away_next, later) = take_at(rt, higher.gate, passes, higher.place, &stamp);
    TwoTurns {
        markets: TwoMarkets {
            first: market,
            second: market_next,
        },
        first: away,
        second: away_next,
        stamp: later,
    }
}

/// Waits for the turns of the markets of two legs, by rising address, and takes them out. `in_order` is whether the
/// first leg's has the lower one.
pub(crate) fn take_two<R: Wait>(
    rt: &R,
    one: Entrance<'_>,
    two: Entrance<'_>,
    passes: &mut Vec<Pass<BankMarket>>,
    in_order: bool,
    last: &Stamp,
) -> TwoTurns
    requires order { Where in_order (IsBelow one.gate.now two.gate.now) (IsBelow two.gate.now one.gate.now) }
    requires idle { AreIdle passes.old.items }
    requires apart { one.place ≡ two.place → ⊥ }
    requires home { IsHomeAt one.gate.now one.place passes.old.items }
    requires home_next { IsHomeAt two.gate.now two.place passes.old.items }
    ensures { HaveTaken one.entry.gate.now two.entry.gate.now one.entry.place two.entry.place
        passes.old.items passes.new.items last.now.number result }
{
    if in_order {
        take_rising(rt, one, two, passes, last)
    } else {
        let turns = take_rising(rt, two, one, passes, last);
        // The same turns, the other market's first.
        let TwoTurns {
            markets: TwoMarkets { first, second },
            first: away,
            second: away_next,
            stamp,
        } = turns;
        TwoTurns {
            markets: TwoMarkets {
                first: second,
                second: first,
            },
            first: away_next,
            second: away,
            stamp,
        }
    }
}

/// Puts the market at a place back with a call more, and leaves the turn.
pub(crate) fn leave_at(
    gate: &Gate<BankMarket>,
    passes: &mut Vec<Pass<BankMarket>>,
    place: usize,
    away: Away<BankMarket>,
    market: BankMarket,
)
    requires { MayLeaveAt gate.now place passes.old.items away market }
    ensures left { (default : MarketPass) → passes.new.items
        ≡ slice_set passes.old.items place
        (left_with (slice_index_or passes.old.items place default) away.start (market_calls market)) }
    ensures seen { HasSeenAt place passes.old.items (market_calls market) }
{
    gate.leave(&mut passes[place], away.put(market));
}
