//! One row, on its market's cell and on the cells of the wallets that it names.

ghost use Rattle.std.specs.Prelude.{◌≡◌, Ok, false, true};
ghost use Rattle.dex_types.specs.Rows.{row_of};
ghost use Rattle.dex_cell.specs.CellState.{CanHold, HasTaken, answer_on};
ghost use Rattle.dex_act.specs.Steps.{HasDone, HasEntered};
ghost use Rattle.dex_act.specs.Wallets.{CanActAt, cells_paid};

use crate::places::Asked;
use crate::probes::probes;
use crate::wallets::{credits, debits};
use dex_cell::{MarketCell, Plan, amounts_of};
use dex_types::{Refusal, Reply};
use dex_wallet::WalletCell;

/// Does a row as it was decided: its deposits leave its wallets, its market makes its step, and its payouts enter its
/// wallets.
fn accept(market: &mut MarketCell, wallets: &mut [WalletCell], asked: &Asked, plan: &Plan)
    requires can { CanActAt asked.now.row.now asked.now.seen.now asked.now.places.now market.old wallets.old }
    requires decided { Ok plan.now ≡ answer_on asked.now.row.now asked.now.seen.now market.old }
    ensures taken { HasTaken asked.now.row.now asked.now.seen.now market.old market.new }
    ensures wallets { wallets.new ≡ cells_paid false asked.now.row.now asked.now.seen.now market.old wallets.old }
{
    let amounts = amounts_of(plan);
    let deposits = debits(wallets, asked, &amounts);
    let payouts = market.carry_out(asked.row, asked.seen, plan, &amounts, deposits);
    credits(wallets, asked, payouts);
}

/// Decides a row, and does it or writes down that it is refused.
fn answer(market: &mut MarketCell, wallets: &mut [WalletCell], asked: &Asked)
    requires { CanActAt asked.now.row.now asked.now.seen.now asked.now.places.now market.old wallets.old }
    ensures taken { HasTaken asked.now.row.now asked.now.seen.now market.old market.new }
    ensures wallets { wallets.new ≡ cells_paid false asked.now.row.now asked.now.seen.now market.old wallets.old }
{
    let mut decided = Err(Refusal::NoAccount);
    market.decide_into(asked.row, asked.seen, &mut decided);
    match &decided {
        Ok(plan) => accept(market, wallets, asked, plan),
        Err(refusal) => market.refuse(asked.row, asked.seen, *refusal),
    }
}

/// A row enters its market's journal: it is done or refused there, or held back, and then nothing was to do.
fn enter(market: &mut MarketCell, wallets: &mut [WalletCell], asked: &Asked, waits: bool)
    requires can { CanActAt asked.now.row.now asked.now.seen.now asked.now.places.now market.old wallets.old }
    requires held { waits ≡ true → CanHold asked.now.row.now asked.now.seen.now market.old }
    ensures entered { HasEntered (row_of asked.now.row.now) waits asked.now.seen.now market.old market.new }
    ensures wallets { wallets.new ≡ cells_paid waits asked.now.row.now asked.now.seen.now market.old wallets.old }
{
    if waits {
        market.idle(asked.row, asked.seen);
    } else {
        answer(market, wallets, asked);
    }
}

/// A row acts on its market's cell and on the cells of the wallets that it names, or is held back there, where its item
/// is refused elsewhere; and this is its market's reply. Its deposits and payouts move as parcels, and it looks at each
/// other wallet that it names.
///
/// Where the row is refused or held back, nothing moves: the journals say so, and that it looked at its wallets.
pub(crate) fn act(
    market: &mut MarketCell,
    wallets: &mut [WalletCell],
    asked: &Asked,
    waits: bool,
) -> Reply
    requires can { CanActAt asked.now.row.now asked.now.seen.now asked.now.places.now market.old wallets.old }
    requires held { waits ≡ true → CanHold asked.now.row.now asked.now.seen.now market.old }
    ensures { HasDone (row_of asked.now.row.now) waits asked.now.seen.now result market.old market.new
        wallets.old wallets.new }
{
    enter(market, wallets, asked, waits);
    let entry = market.last();
    probes(wallets, asked, &entry.moves);
    entry.reply
}
