//! A market that threads share.

ghost use Rattle.std.specs.Prelude.{◌≡◌, [], IfOk, false, max};
ghost use Rattle.dex_types.specs.Rows.{row_of};
ghost use Rattle.dex_act.specs.Steps.{AreStepsOn, IsStepOn};
ghost use Rattle.dex_world.specs.RowsOf.{rows_on};
ghost use Rattle.dex_journals.specs.Journals.{IsBankMarket, MayStep, MayStepBoth, market_more};

use crate::items::{MarketStart, StampedCall};
use dex_act::{Legs, RowAt, RowDone, Terms, step, step_two};
use dex_cell::MarketCell;
use dex_gate::Journaled;
use dex_script_types::Script;
use dex_stamps::{Kept, Log, Stamp};
use dex_types::NoMemory;
use dex_wallet::WalletCell;
use std::alloc::Global;
use std::marker::Model;

/// A market's cell with its journal's stamps, as the value of a gate. Each lane makes at most as many calls as it has
/// rows on the market, and there is room for all rows on it. The cell stays where it is when the market goes into a
/// turn and out of it.
#[derive(Drop)]
pub struct BankMarket {
    cell: Box<MarketCell>,
    stamps: Log<Stamp, ()>,
    last: Stamp,
    script: Kept<Script>,
}

impl Model for BankMarket {
    ghost use Rattle.dex_journals.specs.Journals.{BankMarketState};
    ghost use Rattle.dex_journals.specs.Inside.{IsMarketKept, market_inside};

    ghost Value = { BankMarketState };

    ghost view = { market_inside };

    ghost invariant = { IsMarketKept };
}

impl Journaled for BankMarket {
    ghost use Rattle.dex_journals.specs.Journals.{market_calls, market_origin};

    type Entry = StampedCall;

    type Origin = MarketStart;

    ghost entries = { market_calls };

    ghost lane = { λ call. call.item.asked.lane };

    ghost origin = { market_origin };

    fn count(&self) -> u64 {
        self.cell.entries().len() as u64
    }
}

impl BankMarket {
    /// A market of a script, of whose rows none has acted. Where there is no memory for it, the cell is given up.
    pub fn open(
        alloc: Global,
        cell: MarketCell,
        script: Kept<Script>,
    ) -> Result<BankMarket, NoMemory>
        requires fresh { cell.calls ≡ [] }
        requires room { cell.room ≡ rows_on cell.start.address script.value.rows }
        ensures { IfOk result (λ market. market
            ≡ record { cell = cell; stamps = []; last = 0; script = script.value }) }
    {
        // Each call of a cell tells what always holds of it.
        let _spare = cell.spare();
        Ok(BankMarket {
            cell: Box::new(alloc, cell)?,
            stamps: Log::new(),
            last: Stamp::first(),
            script,
        })
    }

    /// Lends the cell for reading.
    pub fn cell(&self) -> &MarketCell
        ensures cell { result.now ≡ self.now.cell }
        ensures kept { IsBankMarket self.now }
    {
        self.cell.as_ref()
    }

    /// The later of a stamp and the last of the journal's.
    pub fn later(&self, stamp: &Stamp) -> Stamp
        ensures later { result.number ≡ max self.now.last stamp.now.number }
        ensures kept { IsBankMarket self.now }
    {
        self.last.later(stamp)
    }

    /// A row acts on the market and on the cells of the wallets that it names, as `dex_act::step` says, under a stamp
    /// that is above all of the journal's; and the journal has one call more, of a lane that has a row left. It takes
    /// no memory.
    pub fn step(
        &mut self,
        wallets: &mut [WalletCell],
        terms: &Terms,
        asking: &RowAt<'_>,
        stamp: &Stamp,
    ) -> RowDone
        requires { MayStep (row_of asking.now.row.now) asking.now.places stamp.now.number self.old wallets.old }
        ensures step { IsStepOn terms.now (row_of asking.now.row.now) false result self.old.cell self.new.cell
            wallets.old wallets.new }
        ensures stamped { self.new ≡ market_more self.old self.new.cell stamp.now.number }
        ensures kept { IsBankMarket self.new }
    {
        let done = step(self.cell.as_mut(), wallets, terms, asking);
        self.stamps = self.stamps.and(stamp, &());
        self.last = stamp.later(stamp);
        done
    }

    /// The two legs of a swap act on two markets, as `dex_act::step_two` says, both under one stamp, each on its market
    /// as a row alone. It takes no memory.
    pub fn step_two(
        first: &mut BankMarket,
        second: &mut BankMarket,
        wallets: &mut [WalletCell],
        terms: &Terms,
        legs: &Legs<'_>,
        stamp: &Stamp,
    ) -> (RowDone, RowDone)
        requires { MayStepBoth terms.now legs.now stamp.now.number first.old second.old wallets.old }
        ensures steps { AreStepsOn terms.now legs.now result first.old.cell first.new.cell second.old.cell
            second.new.cell wallets.old wallets.new }
        ensures first { first.new ≡ market_more first.old first.new.cell stamp.now.number }
        ensures second { second.new ≡ market_more second.old second.new.cell stamp.now.number }
        ensures kept { IsBankMarket first.new × IsBankMarket second.new }
    {
        let dones = step_two(
            first.cell.as_mut(),
            second.cell.as_mut(),
            wallets,
            terms,
            legs,
        );
        first.stamps = first.stamps.and(stamp, &());
        first.last = stamp.later(stamp);
        second.stamps = second.stamps.and(stamp, &());
        second.last = stamp.later(stamp);
        dones
    }

    /// The cell, at the end.
    pub fn into_cell(self) -> MarketCell
        ensures cell { result ≡ self.cell }
        ensures kept { IsBankMarket self }
    {
        let BankMarket { cell, .. } = self;
        Box::into_inner(cell)
    }
}
