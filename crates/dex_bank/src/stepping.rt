//! One row, or the two legs of a swap, on all cells.

ghost use Rattle.std.specs.Prelude.{◌≡◌, ◌<◌, length, slice_index_or};
ghost use Rattle.dex_types.specs.Rows.{row_of};
ghost use Rattle.dex_cell.specs.CellState.{MarketCellState};
ghost use Rattle.dex_act.specs.Steps.{CanStepBoth};
ghost use Rattle.dex_bank.specs.Cells.{CanAct, CanActBoth};
ghost use Rattle.dex_bank.specs.Places.{StandsAt};
ghost use Rattle.dex_bank.specs.Stepped.{HasStepped, HaveBothStepped};
ghost use Rattle.dex_bank.specs.Stepping.{AreStepsAt};

use crate::cells::Cells;
use crate::standing::Standing;
use dex_act::{Legs, RowAt, RowDone, Terms, step, step_two};
use dex_cell::MarketCell;
use dex_types::{Reply, Row};
use dex_wallet::WalletCell;

/// A row acts on all cells, and this is its market's reply.
pub(crate) fn stepped(cells: &mut Cells, row: &Row, standing: &Standing) -> Reply
    requires row { CanAct (row_of row.now) cells.old }
    requires places { StandsAt cells.old (row_of row.now) standing.now.market standing.now.wallets }
    ensures { HasStepped (row_of row.entry.now) result cells.old cells.new }
{
    let asking = RowAt {
        row,
        places: standing.wallets,
    };
    let done = step(
        &mut cells.markets[standing.market],
        &mut cells.wallets,
        &cells.terms,
        &asking,
    );
    done.reply
}

/// The two legs of a swap act on the markets at two places.
fn steps_at(
    markets: &mut [MarketCell],
    one: usize,
    two: usize,
    wallets: &mut [WalletCell],
    terms: &Terms,
    legs: &Legs<'_>,
) -> (RowDone, RowDone)
    requires within { (one < length markets.old) × (two < length markets.old) }
    requires apart { one ≡ two → ⊥ }
    requires can { (default : MarketCellState) → CanStepBoth terms.now legs.now (slice_index_or markets.old one default)
        (slice_index_or markets.old two default) wallets.old }
    ensures { AreStepsAt terms.now legs.now result one two markets.old markets.new wallets.old wallets.new }
{
    if one < two {
        let (lower, upper) = markets.split_at_mut(two);
        step_two(&mut lower[one], &mut upper[0], wallets, terms, legs)
    } else {
        let (lower, upper) = markets.split_at_mut(one);
        step_two(&mut upper[0], &mut lower[two], wallets, terms, legs)
    }
}

/// Two legs of one swap act, both or neither, and these are their markets' replies.
pub(crate) fn stepped_both(
    cells: &mut Cells,
    first: &Row,
    second: &Row,
    first_standing: &Standing,
    second_standing: &Standing,
) -> (Reply, Reply)
    requires rows { CanActBoth (row_of first.now) (row_of second.now) cells.old }
    requires first { StandsAt cells.old (row_of first.now) first_standing.now.market first_standing.now.wallets }
    requires second { StandsAt cells.old (row_of second.now) second_standing.now.market second_standing.now.wallets }
    ensures { HaveBothStepped (row_of first.entry.now) (row_of second.entry.now) result cells.old cells.new }
{
    let legs = Legs {
        first: RowAt {
            row: first,
            places: first_standing.wallets,
        },
        second: RowAt {
            row: second,
            places: second_standing.wallets,
        },
    };
    let (one, two) = steps_at(
        &mut cells.markets,
        first_standing.market,
        second_standing.market,
        &mut cells.wallets,
        &cells.terms,
        &legs,
    );
    (one.reply, two.reply)
}
