//! What a report tells of in lines: entries, and journals of entries.

ghost use Rattle.std.specs.Prelude.{◌≡◌, ◌≤◌, ◌++◌, ℕ, List, OnOk, Some, length};
ghost use Rattle.std.specs.List.{All, flat_map};
ghost use Rattle.dex_state.specs.Outcomes.{market_journal_of, wallet_journal_of};
ghost use Rattle.dex_report.specs.Report as texts;
ghost use Rattle.dex_report.specs.Telling.{FitEntry, FitMarket, FitWalletEntry, IsJournal, IsToldWallet};

use crate::fitting::address_fits;
use crate::lines::{LINE, write_entry, write_head, write_move};
use dex_state::{MarketJournal, WalletJournal};
use dex_types::{Address, Entry, WalletEntry};
use std::alloc::AllocError;

/// What a report tells of in lines of its own.
pub(crate) trait Told {
    /// Its values fit, as their types have it.
    ghost fits: { Self → Type 0 };

    /// Its lines.
    ghost lines: { Self → List ℕ };

    /// Writes its lines after a text; each is put together in the array.
    fn write(&self, text: &mut Vec<u8>, line: &mut [u8; LINE]) -> Result<(), AllocError>
        ensures fits { OnOk result (fits self.now) }
        ensures text { OnOk result (text.new.items ≡ text.old.items ++ lines self.now) };
}

impl Told for Entry {
    ghost fits = { FitEntry };

    ghost lines = { texts.entry_line };

    fn write(&self, text: &mut Vec<u8>, line: &mut [u8; LINE]) -> Result<(), AllocError> {
        write_entry(text, line, self)
    }
}

impl Told for WalletEntry {
    ghost fits = { FitWalletEntry };

    ghost lines = { texts.move_line };

    fn write(&self, text: &mut Vec<u8>, line: &mut [u8; LINE]) -> Result<(), AllocError> {
        write_move(text, line, self)
    }
}

impl Told for MarketJournal {
    ghost fits = { λ journal. FitMarket (market_journal_of journal) };

    ghost lines = { λ journal. texts.market_lines (market_journal_of journal) };

    fn write(&self, text: &mut Vec<u8>, line: &mut [u8; LINE]) -> Result<(), AllocError> {
        write_journal(text, line, b"market", self.address, &self.entries)
    }
}

impl Told for WalletJournal {
    ghost fits = { λ journal. IsToldWallet (wallet_journal_of journal) };

    ghost lines = { λ journal. texts.wallet_lines (wallet_journal_of journal) };

    fn write(&self, text: &mut Vec<u8>, line: &mut [u8; LINE]) -> Result<(), AllocError> {
        write_journal(text, line, b"wallet", self.address, &self.entries)
    }
}

/// Writes a journal: its first line has this word.
fn write_journal<T: Told>(
    text: &mut Vec<u8>,
    line: &mut [u8; LINE],
    word: &[u8],
    address: Address,
    entries: &[T],
) -> Result<(), AllocError>
    requires { length word.now ≤ 6 }
    ensures fits { OnOk result (IsJournal T.fits address entries.now) }
    ensures text { let head = texts.head_line word.now (Some address) (length entries.now) in
        OnOk result (text.new.items ≡ text.old.items ++ (head ++ flat_map T.lines entries.now)) }
{
    address_fits(address);
    write_head(text, word, Some(address), entries.len() as u64)?;
    write_each(text, line, entries)
}

/// Writes the lines of each.
pub(crate) fn write_each<T: Told>(
    text: &mut Vec<u8>,
    line: &mut [u8; LINE],
    told: &[T],
) -> Result<(), AllocError>
    ensures fits { OnOk result (All T.fits told.now) }
    ensures text { OnOk result (text.new.items ≡ text.old.items ++ flat_map T.lines told.now) }
{
    'told: for one in told {
        one.write(text, line)?;
    }
    Ok(())
}

/// Writes the lines of each, and lets it go.
pub(crate) fn take_each<T: Told + Drop>(
    text: &mut Vec<u8>,
    line: &mut [u8; LINE],
    told: Vec<T>,
) -> Result<(), AllocError>
    ensures fits { OnOk result (All T.fits told.items) }
    ensures text { OnOk result (text.new.items ≡ text.old.items ++ flat_map T.lines told.items) }
{
    'told: for one in told {
        one.write(text, line)?;
    }
    Ok(())
}
