//! A script, from its bytes.

ghost use Rattle.std.specs.Prelude.{◌≡◌, ℕ, IfErr, IfOk, List, OnOk, true, ⊤};
ghost use Rattle.dex_types.specs.Accounts.{accounts_of};
ghost use Rattle.dex_state.specs.Accepted.{AreAccepted};
ghost use Rattle.dex_types.specs.Limits.{AreLimits};
ghost use Rattle.dex_types.specs.declared.limits.TheConstants.{STANDARD as standard};
ghost use Rattle.dex_dump.specs.Answers.{next_number};
ghost use Rattle.dex_rows.specs.Records.{rows_of};
ghost use Rattle.dex_script_types.specs.Facts.{HasNoSwap};
ghost use Rattle.dex_script.specs.Rows.{with_row};
ghost use Rattle.dex_script.specs.Pieces.{IsUnderway, number_after};
ghost use Rattle.dex_script.specs.Scripts.{begins_with_dump, draft_after, fault_in};
ghost use Rattle.dex_script.specs.Begun.{HasReadSome, IsDoneOrUnderway, TellsBegun};
ghost use Rattle.dex_script.specs.Telling.{TellsDraft, TellsLeft, TellsRefusal, TellsScript, TellsStart, TellsText};

use crate::draft::Draft;
use crate::fault::ScriptError;
use crate::instruction::refill;
use crate::laws::{
    a_script_for_batches_has_no_swap, a_script_starts_sound, rows_of_a_script_are_in_order,
};
use crate::making::MakeMarkets;
use crate::market::DeclaredMarket;
use crate::markets::make_markets;
use crate::reader::Reader;
use dex_audit::{
    accounts_without_findings_are_of_sound_markets, audit, mints_without_findings_are_conserved,
};
use dex_dump::{DumpError, DumpRead, is_first_row};
use dex_rows::records::{Fields, Rows};
use dex_script_types::Script;
use dex_statement::{InstructionWords, RowError};
use dex_types::{Limits, NoMemory, Row, STANDARD};
use std::alloc::Global;

/// How the rows of a script are read that stand after its first instruction row.
pub trait ReadRows {
    /// What a way to read needs.
    ghost ready: { Self → Type 0 };

    /// What is read after the rows that are left, the first of which has this number, or the first faulty one. The
    /// accounts of markets that the reader has may be still to be made.
    fn read_rows(
        &self,
        alloc: Global,
        reader: Reader,
        number: u32,
        rows: &mut Rows<'_>,
    ) -> Result<Reader, ScriptError>
        requires ready { ready self.now }
        requires underway { IsUnderway reader }
        ensures { TellsDraft result (draft_after reader number rows.old) };
}

// Markets are made first, one after the other, and then rows are read so.
#[derive(Drop)]
struct InTurn;

impl ReadRows for InTurn {
    ghost ready = { λ how. ⊤ };

    fn read_rows(
        &self,
        alloc: Global,
        reader: Reader,
        number: u32,
        rows: &mut Rows<'_>,
    ) -> Result<Reader, ScriptError> {
        let made = reader.with_markets_by(alloc, &mut InTurn)?;
        let mut number = number;
        read_rows(alloc, made, &mut number, rows, &mut Vec::new(alloc))
    }
}

impl MakeMarkets for InTurn {
    ghost ready = { λ how. ⊤ };

    ghost ran = { λ before after. ⊤ };

    fn make_markets(
        &mut self,
        alloc: Global,
        markets: Vec<DeclaredMarket>,
    ) -> Result<Vec<DeclaredMarket>, NoMemory> {
        make_markets(alloc, markets)
    }
}

/// The script that a text is: the accounts that its first rows make, or that the dump at its start holds, and its
/// instruction rows, within the program's limits. Else the first faulty row with the lowest of its faults, or the fault
/// or the findings of the dump. In a script that is to act in batches a swap is a fault, so each of its rows acts by
/// itself.
pub fn read_script(alloc: Global, bytes: &[u8], batch: bool) -> Result<Script, ScriptError>
    ensures told { TellsScript standard result batch bytes.now }
    ensures apart { IfOk result (λ script. batch ≡ true → HasNoSwap script.rows) }
{
    read_script_within(alloc, bytes, batch, &STANDARD)
}

/// Like `read_script`, within these limits.
pub fn read_script_within(
    alloc: Global,
    bytes: &[u8],
    batch: bool,
    limits: &Limits,
) -> Result<Script, ScriptError>
    requires { AreLimits limits.now }
    ensures told { TellsScript limits.now result batch bytes.now }
    ensures apart { IfOk result (λ script. batch ≡ true → HasNoSwap script.rows) }
{
    read_script_by(alloc, bytes, batch, limits, &InTurn)
}

/// Like `read_script_within`, with the rows after the first instruction row read as the last argument does.
pub fn read_script_by<H: ReadRows>(
    alloc: Global,
    bytes: &[u8],
    batch: bool,
    limits: &Limits,
    how: &H,
) -> Result<Script, ScriptError>
    requires limits { AreLimits limits.now }
    requires ready { H.ready how.now }
    ensures told { TellsScript limits.now result batch bytes.now }
    ensures apart { IfOk result (λ script. batch ≡ true → HasNoSwap script.rows) }
{
    match read_text(alloc, bytes, batch, limits, how) {
        Ok(reader) => {
            a_script_starts_sound();
            rows_of_a_script_are_in_order();
            a_script_for_batches_has_no_swap();
            let script = reader.into_script(alloc)?;
            Ok(script)
        }
        Err(error) => Err(error),
    }
}

fn read_text<H: ReadRows>(
    alloc: Global,
    bytes: &[u8],
    batch: bool,
    limits: &Limits,
    how: &H,
) -> Result<Reader, ScriptError>
    requires limits { AreLimits limits.now }
    requires ready { H.ready how.now }
    ensures { TellsText limits.now result batch bytes.now }
{
    let Begun {
        reader,
        number,
        rows,
    } = begin_script(alloc, bytes, batch, limits)?;
    match rows {
        Some(mut rows) => how.read_rows(alloc, reader, number, &mut rows),
        None => Ok(reader),
    }
}

/// A script whose rows are read up to the first instruction row.
#[derive(Drop)]
pub struct Begun<'a> {
    /// What was read.
    pub reader: Reader,
    /// The number of the next row.
    pub number: u32,
    /// The rows that are left, where an instruction row was found. Else all are read.
    pub rows: Option<Rows<'a>>,
}

/// Reads the first rows of a text, a dump among them, up to the first instruction row; or says why the text is no
/// script, as far as these tell.
pub fn begin_script<'a>(
    alloc: Global,
    bytes: &'a [u8],
    batch: bool,
    limits: &Limits,
) -> Result<Begun<'a>, ScriptError>
    requires { AreLimits limits.now }
    ensures told { TellsBegun limits.now result batch bytes.now }
    ensures underway { IfOk result IsDoneOrUnderway }
{
    let rows = Rows::new(alloc, bytes);
    if begins_with_dump(alloc, bytes, &rows)? {
        begin_behind_dump(alloc, rows, batch, limits)
    } else {
        read_first(alloc, Reader::new(alloc, batch, limits), 1, rows)
    }
}

/// Like `begin_script`, of rows that begin with a dump.
fn begin_behind_dump<'a>(
    alloc: Global,
    rows: Rows<'a>,
    batch: bool,
    limits: &Limits,
) -> Result<Begun<'a>, ScriptError>
    requires begins { begins_with_dump rows ≡ true }
    requires limits { AreLimits limits.now }
    ensures told { (text : List ℕ) → rows.entry ≡ rows_of text → TellsBegun limits.now result batch text }
    ensures underway { IfOk result IsDoneOrUnderway }
{
    accounts_without_findings_are_of_sound_markets();
    mints_without_findings_are_conserved();
    let mut rows = rows;
    let dump = read_dump(alloc, &mut rows, limits)?;
    let number = next_number(dump.count);
    let before = Draft::behind_dump(alloc, dump.accounts, batch, *limits)?;
    read_first(alloc, Reader::of(alloc, before), number, rows)
}

/// How many bytes are still to be read; 0 where the text has a quote.
fn bytes_left(rows: &Rows<'_>) -> usize {
    match rows.plain() {
        Some(plain) => plain.size(),
        None => 0,
    }
}

/// The dump at the start, whose accounts have no findings.
#[tactic(auto, using(dex_state::proofs::TheLimits::widened))]
fn read_dump(alloc: Global, rows: &mut Rows<'_>, limits: &Limits) -> Result<DumpRead, ScriptError>
    requires { AreLimits limits.now }
    ensures dump { TellsStart limits.now result rows.old rows.new }
    ensures accepted { IfOk result (λ read. AreAccepted limits.now (accounts_of read.accounts)) }
{
    let dump = match dex_dump::read_rows(alloc, rows, limits) {
        Ok(dump) => dump,
        Err(DumpError::Refused(fault)) => return Err(ScriptError::Dump(fault)),
        Err(DumpError::NoMemory) => return Err(ScriptError::NoMemory),
    };
    let found = audit(alloc, &dump.accounts)?;
    if found.is_empty() {
        Ok(dump)
    } else {
        Err(ScriptError::Audit(found))
    }
}

/// Whether a text of these rows begins with the row `dump`. None of them is taken: the first is read beside them.
fn begins_with_dump(alloc: Global, bytes: &[u8], rows: &Rows<'_>) -> Result<bool, NoMemory>
    requires { rows.now ≡ rows_of bytes.now }
    ensures { IfOk result (λ begins. begins ≡ begins_with_dump rows.now) }
{
    match rows.plain() {
        Some(plain) => next_begins_dump(&mut Rows::of_plain(&plain)),
        None => next_begins_dump(&mut Rows::new(alloc, bytes)),
    }
}

/// Whether the next row is `dump`.
fn next_begins_dump(rows: &mut Rows<'_>) -> Result<bool, NoMemory>
    ensures { IfOk result (λ begins. begins ≡ begins_with_dump rows.old) }
{
    let mut row = Fields::new();
    let found = rows.next_row(&mut row)?;
    Ok(found && is_first_row(&row))
}

/// What is read after the rows that are left, the first of which has this number, or the first faulty one. Raises the
/// number to that of the row after them. What is read takes its buffers from spare rows, as long as there are some.
pub fn read_rows(
    alloc: Global,
    reader: Reader,
    number: &mut u32,
    rows: &mut Rows<'_>,
    spare: &mut Vec<Row>,
) -> Result<Reader, ScriptError>
    ensures told { TellsDraft result (draft_after reader number.old rows.old) }
    ensures number { OnOk result (number.new ≡ number_after number.old rows.old) }
{
    let mut reader = reader.with_room(bytes_left(rows))?;
    let mut row = Fields::new();
    let mut words = InstructionWords::none(alloc);
    'rows: while rows.next_row(&mut row)? {
        refill(&mut words, spare);
        add_row(alloc, &mut reader, *number, &row, &mut words)?;
        *number = next_number(*number);
    }
    Ok(reader)
}

/// Reads rows up to the first instruction row, which is the last that is taken, or the first faulty one. Where no
/// instruction row stands among them, all are read.
fn read_first<'a>(
    alloc: Global,
    reader: Reader,
    number: u32,
    rows: Rows<'a>,
) -> Result<Begun<'a>, ScriptError>
    ensures read { IfOk result (HasReadSome reader number rows.entry) }
    ensures underway { IfOk result IsDoneOrUnderway }
    ensures refused { IfErr result (λ error. TellsRefusal error (draft_after reader number rows.entry)) }
{
    let mut reader = reader;
    let mut number = number;
    let mut rows = rows;
    let mut row = Fields::new();
    let mut words = InstructionWords::none(alloc);
    'rows: while !reader.is_underway() {
        if !rows.next_row(&mut row)? {
            return Ok(Begun {
                reader,
                number,
                rows: None,
            });
        }
        add_row(alloc, &mut reader, number, &row, &mut words)?;
        number = next_number(number);
    }
    Ok(Begun {
        reader,
        number,
        rows: Some(rows),
    })
}

/// Adds what the row of this number states. After a fault, what is left does not matter.
fn add_row(
    alloc: Global,
    reader: &mut Reader,
    number: u32,
    row: &Fields<'_>,
    words: &mut InstructionWords,
) -> Result<(), ScriptError>
    ensures { TellsLeft result reader.new (fault_in number (with_row reader.old number row.now)) }
{
    match reader.add_row(alloc, number, row, words) {
        Ok(()) => Ok(()),
        Err(RowError::Fault(kind)) => Err(ScriptError::Row {
            row: number,
            kind: kind.number(),
            code: kind.code(),
        }),
        Err(RowError::NoMemory) => Err(ScriptError::NoMemory),
    }
}

/// The number of the row after one. Numbers from the largest u32 on are reported as that.
fn next_number(number: u32) -> u32
    ensures { result ≡ next_number number }
{
    number.saturating_add(1)
}
