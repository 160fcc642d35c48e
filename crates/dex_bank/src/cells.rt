//! All cells of an exchange.

ghost use Rattle.std.specs.Prelude.{◌≡◌, ◌≤◌, IfErr, IfOk, IfSome, length, map};

use crate::closing::{closed, left_by};
use crate::copying::accounts_copy;
use crate::opening::opened;
use crate::room::Room;
use crate::standing::Standing;
use crate::stepping::{stepped, stepped_both};
use dex_act::{AsRow, Terms};
use dex_cell::MarketCell;
use dex_script_types::{RowList, Script};
use dex_state::Outcome;
use dex_types::{Named, NoMemory, Reply};
use dex_wallet::WalletCell;
use dex_world::RowPlaces;
use std::alloc::Global;
use std::marker::Model;

/// The cells of all markets and wallets of an exchange, on which rows act one after the other.
#[derive(Drop)]
pub struct Cells {
    pub(crate) mints: Vec<Named>,
    pub(crate) terms: Terms,
    pub(crate) markets: Vec<MarketCell>,
    pub(crate) wallets: Vec<WalletCell>,
}

impl Model for Cells {
    ghost use Rattle.dex_bank.specs.Cells.{CellsState};
    ghost use Rattle.dex_bank.specs.CellsInside.{cells_inside, IsKept};

    ghost Value = { CellsState };

    ghost view = { cells_inside };

    ghost invariant = { IsKept };
}

impl Cells {
    ghost use Rattle.dex_types.specs.Accounts.{named_of};
    ghost use Rattle.dex_types.specs.Rows.{row_of};
    ghost use Rattle.dex_state.specs.Outcomes.{outcome_of};
    ghost use Rattle.dex_script_types.specs.Facts.{IsScript};
    ghost use Rattle.dex_script_types.specs.Places.{AreBeside, ArePlaced};
    ghost use Rattle.dex_bank.specs.Cells.{AreCells, CanAct, CanActBoth};
    ghost use Rattle.dex_bank.specs.CellsInside.{cells_by, terms_of};
    ghost use Rattle.dex_bank.specs.Closed as left;
    ghost use Rattle.dex_bank.specs.Opened as first;
    ghost use Rattle.dex_bank.specs.Places.{ArePlacedIn, ArePlacesIn};
    ghost use Rattle.dex_bank.specs.Stepped.{HasStepped, HaveBothStepped};

    /// The cells with which a script starts: one for each market and each wallet, with room for an entry of each row
    /// that names it. The script keeps its accounts: the cells have copies of them.
    pub fn open(alloc: Global, script: &Script) -> Result<Cells, NoMemory>
        ensures cells { IfOk result (λ cells. cells ≡ first.opened script.now) }
    {
        let start = accounts_copy(alloc, &script.start)?;
        opened(alloc, start, &script.rows, &script.places, script.program)
    }

    /// The cells with which a script starts, the script's rows, and where the market and the wallets of each row stand
    /// among the cells. The script's accounts themselves go into the cells: none is copied.
    pub fn of_script(
        alloc: Global,
        script: Script,
    ) -> Result<(Cells, RowList, Vec<RowPlaces>), NoMemory>
        ensures cells { IfOk result (λ made. made.0 ≡ first.opened script) }
        ensures rows { IfOk result (λ made. map row_of made.1 ≡ script.rows) }
        ensures places { IfOk result (λ made. ArePlacedIn made.0 (map row_of made.1) made.2.items) }
        ensures placed { IfOk result (λ made. ArePlaced script.start (map row_of made.1) made.2.items) }
        ensures beside { IfOk result (λ made. AreBeside (map row_of made.1) made.2.items) }
        ensures script { IsScript script }
    {
        let Script {
            start,
            rows,
            places,
            lanes: _,
            program,
            limits: _,
        } = script;
        let cells = opened(alloc, start, &rows, &places, program)?;
        Ok((cells, rows, places))
    }

    /// The cells of these markets and wallets, beside mints and what rows see of no wallet.
    pub fn of(
        mints: Vec<Named>,
        terms: Terms,
        markets: Vec<MarketCell>,
        wallets: Vec<WalletCell>,
    ) -> Cells
        requires cells { AreCells (cells_by mints.items terms markets.items wallets.items) }
        ensures { result ≡ cells_by mints.items terms markets.items wallets.items }
    {
        Cells {
            mints,
            terms,
            markets,
            wallets,
        }
    }

    /// What rows see beside their wallets.
    pub fn terms(&self) -> Terms
        ensures { result ≡ terms_of self.now }
    {
        self.terms
    }

    /// Takes all cells apart: the mints, the markets and the wallets.
    pub fn into_parts(self) -> (Vec<Named>, Vec<MarketCell>, Vec<WalletCell>)
        ensures mints { map named_of result.0.items ≡ self.mints }
        ensures markets { result.1.items ≡ self.markets }
        ensures wallets { result.2.items ≡ self.wallets }
        ensures cells { AreCells self }
    {
        let Cells {
            mints,
            markets,
            wallets,
            ..
        } = self;
        (mints, markets, wallets)
    }

    /// A row acts on its market and on the wallets that it names, and this is its market's reply. Where it comes
    /// without the places of these among the cells, they are looked up. It takes no memory.
    pub fn step<W: AsRow>(&mut self, row: &W) -> Reply
        requires row { CanAct (row_of (W.is row.now)) self.old }
        requires placed { IfSome (W.at row.now) (ArePlacesIn self.old (row_of (W.is row.now))) }
        ensures { HasStepped (row_of (W.is row.entry.now)) result self.old self.new }
    {
        let standing = Standing::of(self, row);
        stepped(self, row.row(), &standing)
    }

    /// Two legs of one swap act, both or neither, and these are their markets' replies. Where they come without the
    /// places of what they name, these are looked up. It takes no memory.
    pub fn step_two<W: AsRow>(&mut self, first: &W, second: &W) -> (Reply, Reply)
        requires rows { CanActBoth (row_of (W.is first.now)) (row_of (W.is second.now)) self.old }
        requires first { IfSome (W.at first.now) (ArePlacesIn self.old (row_of (W.is first.now))) }
        requires second { IfSome (W.at second.now) (ArePlacesIn self.old (row_of (W.is second.now))) }
        ensures { HaveBothStepped (row_of (W.is first.entry.now)) (row_of (W.is second.entry.now)) result
            self.old self.new }
    {
        let one = Standing::of(self, first);
        let two = Standing::of(self, second);
        stepped_both(self, first.row(), second.row(), &one, &two)
    }

    /// The accounts and the journals of all cells, as they are. Where there is no memory for them, all cells are given
    /// back as they were.
    pub fn close(self, alloc: Global) -> Result<Outcome, Cells>
        ensures outcome { IfOk result (λ outcome. outcome_of outcome ≡ left.closed self) }
        ensures refused { IfErr result (λ cells. cells ≡ self) }
        ensures cells { AreCells self }
    {
        closed(alloc, self)
    }

    /// The accounts and the journals of all cells, as they are, written into the room for it.
    pub fn close_into(self, room: Room) -> Outcome
        requires room { (length self.markets ≤ room.markets) × (length self.wallets ≤ room.wallets) }
        ensures outcome { outcome_of result ≡ left.closed self }
        ensures cells { AreCells self }
    {
        left_by(self, room)
    }
}
