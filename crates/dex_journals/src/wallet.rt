//! A wallet that threads share.

ghost use Rattle.std.specs.Prelude.{◌≡◌, ◌<◌, [], max};
ghost use Rattle.dex_world.specs.RowsOf.{rows_naming};
ghost use Rattle.dex_journals.specs.Journals.{IsBankWallet, MayComeBack, left_by, wallet_more};

use crate::items::{StampedEntry, WalletStart};
use dex_gate::Journaled;
use dex_script_types::Script;
use dex_stamps::{Kept, Log, Stamp};
use dex_wallet::WalletCell;
use std::marker::Model;

/// A wallet's cell with its journal's stamps, as the value of a gate. Each lane makes at most as many entries as it has
/// rows that name the wallet, and there is room for all rows that name it.
#[derive(Drop)]
pub struct BankWallet {
    cell: WalletCell,
    stamps: Log<Stamp, ()>,
    last: Stamp,
    script: Kept<Script>,
}

impl Model for BankWallet {
    ghost use Rattle.dex_journals.specs.Journals.{BankWalletState};
    ghost use Rattle.dex_journals.specs.Inside.{IsWalletKept, wallet_inside};

    ghost Value = { BankWalletState };

    ghost view = { wallet_inside };

    ghost invariant = { IsWalletKept };
}

impl Journaled for BankWallet {
    ghost use Rattle.dex_journals.specs.Journals.{wallet_entries, wallet_origin};

    type Entry = StampedEntry;

    type Origin = WalletStart;

    ghost entries = { wallet_entries };

    ghost lane = { λ entry. entry.item.lane };

    ghost origin = { wallet_origin };

    fn count(&self) -> u64 {
        self.cell.entries().len() as u64
    }
}

/// What stays behind of a wallet while its cell is out for a row.
#[derive(Drop)]
pub struct WalletTrail {
    before: Kept<WalletCell>,
    stamps: Log<Stamp, ()>,
    last: Stamp,
    script: Kept<Script>,
}

impl Model for WalletTrail {
    ghost use Rattle.dex_journals.specs.Journals.{TrailState};
    ghost use Rattle.dex_journals.specs.Inside.{IsTrailKept, trail_inside};

    ghost Value = { TrailState };

    ghost view = { trail_inside };

    ghost invariant = { IsTrailKept };
}

impl BankWallet {
    /// A wallet of a script, of whose rows none has acted.
    pub fn open(cell: WalletCell, script: Kept<Script>) -> BankWallet
        requires fresh { cell.entries ≡ [] }
        requires room { cell.room ≡ rows_naming cell.address script.value.rows }
        ensures { result ≡ record { cell = cell; stamps = []; last = 0; script = script.value } }
    {
        BankWallet {
            cell,
            stamps: Log::new(),
            last: Stamp::first(),
            script,
        }
    }

    /// Lends the cell for reading.
    pub fn cell(&self) -> &WalletCell
        ensures cell { result.now ≡ self.now.cell }
        ensures kept { IsBankWallet self.now }
    {
        &self.cell
    }

    /// Takes the cell out for a row, and what stays behind.
    pub fn into_parts(self) -> (WalletCell, WalletTrail)
        ensures cell { result.0 ≡ self.cell }
        ensures trail { left_by result.1 ≡ self }
        ensures kept { IsBankWallet self }
    {
        let BankWallet {
            cell,
            stamps,
            last,
            script,
        } = self;
        let before = Kept::of(&cell);
        let trail = WalletTrail {
            before,
            stamps,
            last,
            script,
        };
        (cell, trail)
    }

    /// The cell, at the end.
    pub fn into_cell(self) -> WalletCell
        ensures cell { result ≡ self.cell }
        ensures kept { IsBankWallet self }
    {
        let BankWallet { cell, .. } = self;
        cell
    }
}

impl WalletTrail {
    /// The later of a stamp and the last of the journal's.
    pub fn later(&self, stamp: &Stamp) -> Stamp
        ensures { result.number ≡ max self.now.last stamp.now.number }
    {
        self.last.later(stamp)
    }

    /// The wallet with its cell again: it has one entry more, under a stamp that is above all of the journal's, of a
    /// lane that has a row left.
    pub fn with(self, cell: WalletCell, stamp: &Stamp) -> BankWallet
        requires entry { MayComeBack self cell }
        requires stamp { self.last < stamp.now.number }
        ensures wallet { result ≡ wallet_more (left_by self) cell stamp.now.number }
        ensures kept { IsBankWallet result }
    {
        let WalletTrail { stamps, script, .. } = self;
        BankWallet {
            cell,
            stamps: stamps.and(stamp, &()),
            last: stamp.later(stamp),
            script,
        }
    }
}
