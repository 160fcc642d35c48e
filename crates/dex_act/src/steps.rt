//! One row, or the two legs of a swap: the one step that every way to run makes.

ghost use Rattle.std.specs.Prelude.{◌≡◌, ◌&&◌, false, is_some, not, true};
ghost use Rattle.dex_types.specs.Rows.{row_of};
ghost use Rattle.dex_types.specs.Why.{why};
ghost use Rattle.dex_history.specs.Journal.{request_of};
ghost use Rattle.dex_cell.specs.CellState.{CanHold, IsFor, market_at};
ghost use Rattle.dex_act.specs.Steps.{CanStep, CanStepBoth, HasDone, IsStepOn, AreStepsOn, IsRecorded};
ghost use Rattle.dex_act.specs.Wallets.{CanActAt};

use crate::places::{Asked, WalletPlaces};
use crate::rows::act;
use crate::sight::{nothing_seen, see};
use dex_cell::MarketCell;
use dex_process::Terms;
use dex_stamps::Kept;
use dex_types::{Entry, Reply, Row, Seen};
use dex_wallet::WalletCell;

/// A row, and where the wallets that it names stand among the cells in hand.
#[derive(Clone, Copy)]
pub struct RowAt<'a> {
    pub row: &'a Row,
    pub places: WalletPlaces,
}

/// The two legs of a swap.
#[derive(Clone, Copy)]
pub struct Legs<'a> {
    pub first: RowAt<'a>,
    pub second: RowAt<'a>,
}

/// What a row did: what it saw and the entry that it made in its market's journal, which only clauses read, and the
/// entry's reply.
#[derive(Drop)]
pub struct RowDone {
    pub seen: Kept<Seen>,
    pub entry: Kept<Entry>,
    pub reply: Reply,
}

/// A row acts or is held back, and this is what it did.
fn done(
    market: &mut MarketCell,
    wallets: &mut [WalletCell],
    asking: &RowAt<'_>,
    seen: &Seen,
    waits: bool,
) -> RowDone
    requires can { CanActAt asking.now.row.now seen.now asking.now.places market.old wallets.old }
    requires held { waits ≡ true → CanHold asking.now.row.now seen.now market.old }
    ensures seen { result.seen.value ≡ seen.now }
    ensures recorded { IsRecorded (row_of asking.now.row.now) waits (market_at market.old) result }
    ensures done { HasDone (row_of asking.now.row.now) waits result.seen.value result.reply market.old market.new
        wallets.old wallets.new }
{
    let asked = Asked {
        row: asking.row,
        seen,
        places: &asking.places,
    };
    let reply = act(market, wallets, &asked, waits);
    RowDone {
        seen: Kept::of(seen),
        entry: Kept::of(market.last()),
        reply,
    }
}

/// A row sees the wallets that it names, and acts on its market's cell and on theirs. It takes no memory.
///
/// Where the row is refused, nothing moves: the journals say that it was refused and that it looked at its wallets.
pub fn step(
    market: &mut MarketCell,
    wallets: &mut [WalletCell],
    terms: &Terms,
    asking: &RowAt<'_>,
) -> RowDone
    requires { CanStep (row_of asking.now.row.now) asking.now.places market.old wallets.old }
    ensures { IsStepOn terms.now (row_of asking.now.row.now) false result market.old market.new
        wallets.old wallets.new }
{
    let mut seen = nothing_seen(terms);
    see(wallets, terms, asking, &mut seen);
    done(market, wallets, asking, &seen, false)
}

/// Whether a row would be refused by a market.
fn is_refused(market: &MarketCell, row: &Row, seen: &Seen) -> bool
    requires { IsFor row.now seen.now market.now }
    ensures { result ≡ is_some (why (request_of (row_of row.entry.now)) seen.now (market_at market.now)) }
{
    market.decide(row, seen).is_err()
}

/// Whether a leg waits: the other is refused, and this one is not.
fn waits(other: bool, refused: bool) -> bool
    ensures { result ≡ (other && not refused) }
{
    other && !refused
}

/// The two legs of a swap act, both or neither: both are looked at and decided before either acts, and a leg that would
/// not be refused is held back where the other would be. It takes no memory.
pub fn step_two(
    first: &mut MarketCell,
    second: &mut MarketCell,
    wallets: &mut [WalletCell],
    terms: &Terms,
    legs: &Legs<'_>,
) -> (RowDone, RowDone)
    requires { CanStepBoth terms.now legs.now first.old second.old wallets.old }
    ensures { AreStepsOn terms.now legs.now result first.old first.new second.old second.new
        wallets.old wallets.new }
{
    let mut one_seen = nothing_seen(terms);
    let mut two_seen = nothing_seen(terms);
    see(wallets, terms, &legs.first, &mut one_seen);
    see(wallets, terms, &legs.second, &mut two_seen);
    let one_refused = is_refused(first, legs.first.row, &one_seen);
    let two_refused = is_refused(second, legs.second.row, &two_seen);
    let one_waits = waits(two_refused, one_refused);
    let two_waits = waits(one_refused, two_refused);
    let one = done(first, wallets, &legs.first, &one_seen, one_waits);
    let two = done(second, wallets, &legs.second, &two_seen, two_waits);
    (one, two)
}
