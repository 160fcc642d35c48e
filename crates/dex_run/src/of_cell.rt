//! Values behind gates, each of which is of one cell.

ghost use Rattle.std.specs.Prelude.{◌≡◌, [], IfOk};
ghost use Rattle.dex_script_types.specs.PlainScript.{PlainScript};
ghost use Rattle.dex_world.specs.RowsOf.{rows_naming, rows_on};
ghost use Rattle.dex_journals.specs.Journals.{IsBankMarket, IsBankWallet};

use dex_cell::MarketCell;
use dex_gate::Journaled;
use dex_journals::{BankMarket, BankWallet};
use dex_script_types::Script;
use dex_stamps::Kept;
use dex_types::NoMemory;
use dex_wallet::WalletCell;
use std::alloc::Global;

/// A value behind a gate, which is of one cell.
pub(crate) trait OfCell: Journaled {
    /// The cell.
    type Cell: Drop;

    ghost gives: { Self → Self.Cell };

    /// What always holds of the value.
    ghost kept: { Self → Type 0 };

    /// That no row of a script has acted on the cell, which has room for all rows on it.
    ghost fresh: { PlainScript → Self.Cell → Type 0 };

    /// What no turn changes of a value that is opened so.
    ghost from: { PlainScript → Self.Cell → Self.Origin };

    /// A value of a script, of whose rows none has acted. Asks memory.
    fn over(alloc: Global, cell: Self::Cell, script: Kept<Script>) -> Result<Self, NoMemory>
        requires { fresh script.value cell }
        ensures origin { IfOk result (λ value. Self.origin value ≡ from script.value cell) }
        ensures empty { IfOk result (λ value. Self.entries value ≡ []) };

    /// The cell, at the end.
    fn leave(self) -> Self::Cell
        ensures cell { result ≡ gives self }
        ensures kept { kept self };
}

impl OfCell for BankMarket {
    type Cell = MarketCell;

    ghost gives = { λ market. market.cell };

    ghost kept = { IsBankMarket };

    ghost fresh = { λ script cell. (cell.calls ≡ []) × (cell.room ≡ rows_on cell.start.address script.rows) };

    ghost from = { λ script cell. record { start = cell.start; script = script } };

    fn over(alloc: Global, cell: MarketCell, script: Kept<Script>) -> Result<BankMarket, NoMemory> {
        BankMarket::open(alloc, cell, script)
    }

    fn leave(self) -> MarketCell {
        self.into_cell()
    }
}

impl OfCell for BankWallet {
    type Cell = WalletCell;

    ghost gives = { λ wallet. wallet.cell };

    ghost kept = { IsBankWallet };

    ghost fresh = { λ script cell. (cell.entries ≡ []) × (cell.room ≡ rows_naming cell.address script.rows) };

    ghost from = { λ script cell. record {
      start = record { address = cell.address; bytes = cell.start };
      script = script;
    } };

    fn over(alloc: Global, cell: WalletCell, script: Kept<Script>) -> Result<BankWallet, NoMemory> {
        let _ = alloc;
        Ok(BankWallet::open(cell, script))
    }

    fn leave(self) -> WalletCell {
        self.into_cell()
    }
}
