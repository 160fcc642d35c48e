//! Journals that are told while they grow: of each its lines so far, and how many these are. The lines stand in pieces,
//! none of which is copied when more lines come.

ghost use Rattle.std.specs.Prelude.{◌≡◌, ◌+◌, ◌<◌, ◌≤◌, ◌^◌, ◌++◌, [], List, IfOk, OnOk, codes, length, map};
ghost use Rattle.std.specs.List.{All, AllZip, flat_map};
ghost use Rattle.dex_types.specs.Accounts.{accounts_of, market_accounts_of, named_of};
ghost use Rattle.dex_dump.specs.Pieces.{piece_text, text_in};
ghost use Rattle.dex_state.specs.Outcomes.{PlainMarketJournal, PlainOutcome, PlainWalletJournal};
ghost use Rattle.dex_state.specs.Outcomes.{market_journal_of, wallet_journal_of};
ghost use Rattle.dex_report.specs.Growing.{IsCounted, Tells, TellsMarket, TellsWallet, each_goes_on, goes_on};
ghost use Rattle.dex_report.specs.Growing.{journal_text, market_goes_on, untold, untold_market, untold_wallet};
ghost use Rattle.dex_report.specs.Growing.{wallet_goes_on};
ghost use Rattle.dex_report.specs.Lines.{line};
ghost use Rattle.dex_report.specs.Report.{head_line, report_text};
ghost use Rattle.dex_report.specs.Telling.{FitOutcome};

use crate::fitting::address_fits;
use crate::lines::{LINE, write_head};
use crate::told::Told;
use crate::writing::{begin_piece, make_room};
use dex_dump::{Piece, Pieces, room_of_dump, take_accounts};
use dex_state::{MarketJournal, WalletJournal};
use dex_types::{Accounts, Address, MarketAccounts, Named, NoMemory};
use std::alloc::{AllocError, Global};

/// The most room that a piece of a journal's lines begins with, in bytes. The first has little, and each further one
/// twice as much as the one before, since most of many journals are short.
const PIECE: usize = 32_768;

/// A piece of fewer bytes is copied behind what stands before it in a report, so that a report of many short journals
/// has few pieces.
const SMALL: usize = 4_096;

/// The most bytes of a line of a wallet's journal, and of a journal's first line.
const SHORT: usize = 192;

/// The most room that a report's dump begins with. Text of large accounts goes on where they stood.
const DUMP: usize = 67_108_864;

/// The lines of a journal's entries so far.
#[derive(Drop)]
pub struct JournalText {
    pub address: Address,
    pub count: u64,
    pub lines: Pieces,
}

/// The lines of the entries of all journals so far.
#[derive(Drop)]
pub struct JournalTexts {
    pub markets: Vec<JournalText>,
    pub wallets: Vec<JournalText>,
}

impl JournalTexts {
    /// The journals of these accounts, without entries.
    pub fn of(alloc: Global, accounts: &Accounts) -> Result<JournalTexts, NoMemory>
        ensures { IfOk result (λ texts. Tells texts (untold (accounts_of accounts.now))) }
    {
        Ok(JournalTexts {
            markets: texts_of_markets(alloc, &accounts.markets)?,
            wallets: texts_of_wallets(alloc, &accounts.wallets)?,
        })
    }

    /// Tells the entries of these journals behind those of the journals at their places, and lets the journals go.
    pub fn take(
        &mut self,
        alloc: Global,
        markets: Vec<MarketJournal>,
        wallets: Vec<WalletJournal>,
    ) -> Result<(), NoMemory>
        ensures { OnOk result ((outcome : PlainOutcome) → Tells self.old outcome → Tells self.new
            (goes_on outcome (map market_journal_of markets.items) (map wallet_journal_of wallets.items))) }
    {
        let mut line = [0; LINE];
        tell_markets(alloc, &mut line, &mut self.markets, &markets)?;
        tell_wallets(alloc, &mut line, &mut self.wallets, &wallets)?;
        Ok(())
    }

    /// The report of an outcome that has these journals and accounts, and of this many rows, in pieces that follow each
    /// other: those of long journals are the ones that they were told in. The accounts are given up: each market's are
    /// let go when they are written. All values that it tells fit.
    pub fn into_report(
        self,
        alloc: Global,
        accounts: Accounts,
        rows: u32,
    ) -> Result<Vec<Piece>, NoMemory>
        ensures fits { IfOk result (λ pieces. (outcome : PlainOutcome) → Tells self outcome
            → outcome.accounts ≡ accounts_of accounts → FitOutcome outcome) }
        ensures text { IfOk result (λ pieces. (outcome : PlainOutcome) → Tells self outcome
            → outcome.accounts ≡ accounts_of accounts → flat_map piece_text pieces.items ≡ report_text outcome rows) }
    {
        let mut text = Pieces::with_capacity(alloc, SHORT)?;
        add_head(alloc, &mut text, b"report", None, rows as u64)?;
        add_journals(alloc, &mut text, b"market", self.markets)?;
        add_journals(alloc, &mut text, b"wallet", self.wallets)?;
        let room = room_of_dump(&accounts).min(DUMP);
        make_room(alloc, &mut text, room, room)?;
        take_accounts(&mut text, accounts)?;
        add_end(&mut text)?;
        let pieces = text.into_pieces()?;
        Ok(pieces)
    }
}

/// The texts of markets' journals without entries.
fn texts_of_markets(
    alloc: Global,
    markets: &[MarketAccounts],
) -> Result<Vec<JournalText>, AllocError>
    ensures { let journals = map untold_market (map market_accounts_of markets.now) in
        IfOk result (λ texts. AllZip TellsMarket texts.items journals) }
{
    let mut texts = Vec::with_capacity(alloc, markets.len())?;
    for market in markets {
        let text = text_of(alloc, market.address)?;
        texts.push(text)?;
    }
    Ok(texts)
}

/// The texts of wallets' journals without entries.
fn texts_of_wallets(alloc: Global, wallets: &[Named]) -> Result<Vec<JournalText>, AllocError>
    ensures { let journals = map untold_wallet (map named_of wallets.now) in
        IfOk result (λ texts. AllZip TellsWallet texts.items journals) }
{
    let mut texts = Vec::with_capacity(alloc, wallets.len())?;
    for wallet in wallets {
        let text = text_of(alloc, wallet.address)?;
        texts.push(text)?;
    }
    Ok(texts)
}

/// The text of the journal of this address, without entries. It takes no room yet.
fn text_of(alloc: Global, address: Address) -> Result<JournalText, AllocError>
    ensures address { IfOk result (λ text. text.address ≡ address) }
    ensures count { IfOk result (λ text. text.count ≡ 0) }
    ensures text { IfOk result (λ text. text_in text.lines ≡ []) }
{
    let lines = Pieces::with_capacity(alloc, 0)?;
    Ok(JournalText {
        address,
        count: 0,
        lines,
    })
}

/// Tells the entries of markets' journals, each on the text at its place.
fn tell_markets(
    alloc: Global,
    line: &mut [u8; LINE],
    texts: &mut [JournalText],
    journals: &[MarketJournal],
) -> Result<(), AllocError>
    ensures { OnOk result ((told : List PlainMarketJournal) → AllZip TellsMarket texts.old told
        → AllZip TellsMarket texts.new (each_goes_on market_goes_on told (map market_journal_of journals.now))) }
{
    for place in 0..texts.len().min(journals.len()) {
        texts[place].tell(alloc, line, &journals[place].entries, LINE)?;
    }
    Ok(())
}

/// Tells the entries of wallets' journals, each on the text at its place.
fn tell_wallets(
    alloc: Global,
    line: &mut [u8; LINE],
    texts: &mut [JournalText],
    journals: &[WalletJournal],
) -> Result<(), AllocError>
    ensures { OnOk result ((told : List PlainWalletJournal) → AllZip TellsWallet texts.old told
        → AllZip TellsWallet texts.new (each_goes_on wallet_goes_on told (map wallet_journal_of journals.now))) }
{
    for place in 0..texts.len().min(journals.len()) {
        texts[place].tell(alloc, line, &journals[place].entries, SHORT)?;
    }
    Ok(())
}

impl JournalText {
    /// Tells entries behind those before. Each line has at most so many bytes, but for the text of a refusal.
    fn tell<T: Told>(
        &mut self,
        alloc: Global,
        line: &mut [u8; LINE],
        entries: &[T],
        most: usize,
    ) -> Result<(), AllocError>
        ensures address { OnOk result (self.new.address ≡ self.old.address) }
        ensures count { OnOk result (self.new.count ≡ self.old.count + length entries.now) }
        ensures fits { OnOk result (All T.fits entries.now) }
        ensures text { OnOk result (text_in self.new.lines ≡ text_in self.old.lines ++ flat_map T.lines entries.now) }
    {
        let count = self
            .count
            .checked_add(entries.len() as u64)
            .ok_or(AllocError)?;
        add_lines(alloc, &mut self.lines, line, entries, most)?;
        self.count = count;
        Ok(())
    }
}

/// Writes the lines of entries after a text.
fn add_lines<T: Told>(
    alloc: Global,
    text: &mut Pieces,
    line: &mut [u8; LINE],
    entries: &[T],
    most: usize,
) -> Result<(), AllocError>
    ensures fits { OnOk result (All T.fits entries.now) }
    ensures text { OnOk result (text_in text.new ≡ text_in text.old ++ flat_map T.lines entries.now) }
{
    'entries: for entry in entries {
        add_line(alloc, text, line, entry, most)?;
    }
    Ok(())
}

/// Writes the line of an entry after a text. Where it might not fit into the last piece, another one begins.
fn add_line<T: Told>(
    alloc: Global,
    text: &mut Pieces,
    line: &mut [u8; LINE],
    entry: &T,
    most: usize,
) -> Result<(), AllocError>
    ensures fits { OnOk result (T.fits entry.now) }
    ensures text { OnOk result (text_in text.new ≡ text_in text.old ++ T.lines entry.now) }
{
    let room = text.last.capacity().saturating_mul(2).max(most).min(PIECE);
    make_room(alloc, text, most, room)?;
    entry.write(&mut text.last, line)
}

/// Writes the journals of these texts after a report: the first line of each, of this word, and its entries.
fn add_journals(
    alloc: Global,
    text: &mut Pieces,
    word: &[u8],
    journals: Vec<JournalText>,
) -> Result<(), AllocError>
    requires { length word.now ≤ 6 }
    ensures counted { OnOk result (All IsCounted journals.items) }
    ensures text { OnOk result (text_in text.new
        ≡ text_in text.old ++ flat_map (journal_text word.now) journals.items) }
{
    for journal in journals {
        add_journal(alloc, text, word, journal)?;
    }
    Ok(())
}

fn add_journal(
    alloc: Global,
    text: &mut Pieces,
    word: &[u8],
    journal: JournalText,
) -> Result<(), AllocError>
    requires { length word.now ≤ 6 }
    ensures counted { OnOk result (IsCounted journal) }
    ensures text { OnOk result (text_in text.new ≡ text_in text.old ++ journal_text word.now journal) }
{
    address_fits(journal.address);
    add_head(alloc, text, word, Some(journal.address), journal.count)?;
    let pieces = journal.lines.into_pieces()?;
    add_pieces(alloc, text, pieces)
}

/// Writes a line of a word, an address where there is one, and a number after a report.
fn add_head(
    alloc: Global,
    text: &mut Pieces,
    word: &[u8],
    address: Option<Address>,
    number: u64,
) -> Result<(), AllocError>
    requires { length word.now ≤ 6 }
    ensures counted { OnOk result (number < 2 ^ 64) }
    ensures text { OnOk result (text_in text.new ≡ text_in text.old ++ head_line word.now address number) }
{
    make_room(alloc, text, SHORT, 2 * SMALL)?;
    write_head(&mut text.last, word, address, number)
}

/// Pieces after a report.
fn add_pieces(alloc: Global, text: &mut Pieces, pieces: Vec<Piece>) -> Result<(), AllocError>
    ensures { OnOk result (text_in text.new ≡ text_in text.old ++ flat_map piece_text pieces.items) }
{
    for piece in pieces {
        add_piece(alloc, text, piece)?;
    }
    Ok(())
}

/// A piece after a report: a small one is copied.
fn add_piece(alloc: Global, text: &mut Pieces, piece: Piece) -> Result<(), AllocError>
    ensures { OnOk result (text_in text.new ≡ text_in text.old ++ piece_text piece) }
{
    if let Piece::Bytes(bytes) = &piece {
        if bytes.len() < SMALL {
            make_room(alloc, text, bytes.len(), 2 * SMALL)?;
            return text.last.extend_from_slice(bytes);
        }
    }
    begin_piece(alloc, text, 0)?;
    text.done.push(piece)?;
    Ok(())
}

/// The last line of a report.
fn add_end(text: &mut Pieces) -> Result<(), AllocError>
    ensures { OnOk result (text_in text.new ≡ text_in text.old ++ line (codes "end")) }
{
    text.last.extend_from_slice(b"end\n")
}
