//! A part of a report.

ghost use Rattle.std.specs.Prelude.{◌≡◌, ◌++◌, OnOk};
ghost use Rattle.dex_dump.specs.Pieces.{text_in};
ghost use Rattle.dex_report.specs.Parts.{FitPart, part_lines};

use crate::lines::LINE;
use crate::told::{Told, take_each};
use dex_dump::{Pieces, room_of_market, take_market_rows};
use dex_state::{MarketJournal, WalletJournal};
use dex_types::{MarketAccounts, Row};
use std::alloc::AllocError;

/// Rows of a market with more bytes of text than this are those of large accounts.
const LARGE: usize = 4_194_304;

/// What is written, and let go, in one step.
#[derive(Drop)]
pub(crate) enum Part {
    /// What is written already.
    Text(Vec<u8>),
    /// The journal of a market.
    Market(MarketJournal),
    /// The journals of all wallets.
    Wallets(Vec<WalletJournal>),
    /// The rows of a market's accounts.
    Rows(MarketAccounts),
    /// A piece of the rows of a script, of which nothing is written: they are let go beside what is.
    Spent(Vec<Row>),
}

impl Part {
    /// About how many bytes its text has.
    pub(crate) fn size(&self) -> usize {
        match self {
            Part::Text(bytes) => bytes.len(),
            Part::Market(journal) => journal.entries.len().saturating_mul(96),
            Part::Wallets(journals) => size_of_wallets(journals),
            Part::Rows(market) => room_of_market(market),
            Part::Spent(_) => 0,
        }
    }

    /// How much room it wants before it is written. Large accounts want none: text goes on where they stood.
    pub(crate) fn room(&self) -> usize {
        match self {
            Part::Rows(_) if LARGE < self.size() => 0,
            _ => self.size(),
        }
    }

    /// How long it takes to write it and to let it go, told in bytes of accounts, which are mostly zeros: a byte of a
    /// market's journal takes about as long as eight of these, one of a wallet's as five, and a row that is let go as
    /// long as 400.
    pub(crate) fn weight(&self) -> usize {
        match self {
            Part::Text(_) | Part::Rows(_) => self.size(),
            Part::Market(_) => self.size().saturating_mul(8),
            Part::Wallets(_) => self.size().saturating_mul(5),
            Part::Spent(rows) => rows.len().saturating_mul(400),
        }
    }
}

/// About how many bytes the text of all parts has.
pub(crate) fn size_of(parts: &[Part]) -> usize {
    let mut size: usize = 0;
    'parts: for part in parts {
        size = size.saturating_add(part.size());
    }
    size
}

/// How long all parts take.
pub(crate) fn weight_of(parts: &[Part]) -> usize {
    let mut weight: usize = 0;
    'parts: for part in parts {
        weight = weight.saturating_add(part.weight());
    }
    weight
}

/// About how many bytes the text of these journals has.
fn size_of_wallets(journals: &[WalletJournal]) -> usize {
    let mut size: usize = 0;
    'journals: for journal in journals {
        size = size.saturating_add(journal.entries.len().saturating_mul(48));
    }
    size
}

/// Writes a part, which is given up, after a text; each of its lines is put together in the array.
pub(crate) fn take_part(
    text: &mut Pieces,
    line: &mut [u8; LINE],
    part: Part,
) -> Result<(), AllocError>
    ensures fits { OnOk result (FitPart part) }
    ensures text { OnOk result (text_in text.new ≡ text_in text.old ++ part_lines part) }
{
    match part {
        Part::Text(bytes) => text.last.extend_from_slice(&bytes),
        Part::Market(journal) => journal.write(&mut text.last, line),
        Part::Wallets(journals) => take_each(&mut text.last, line, journals),
        Part::Rows(market) => take_market_rows(text, market),
        Part::Spent(_) => Ok(()),
    }
}
