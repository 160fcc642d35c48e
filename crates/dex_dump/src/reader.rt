//! Reading a dump.

ghost use Rattle.std.specs.Prelude.{◌≡◌, IfOk};
ghost use Rattle.dex_types.specs.Accounts.{accounts_of};
ghost use Rattle.dex_state.specs.Accepted.{AreAccepted};
ghost use Rattle.dex_types.specs.Limits.{AreLimits};
ghost use Rattle.dex_types.specs.declared.limits.TheConstants.{STANDARD as standard};
ghost use Rattle.dex_state.specs.Held.{HoldBytes};
ghost use Rattle.dex_dump.specs.Answers as spec;
ghost use Rattle.dex_dump.specs.Telling.{TellsAccounts, TellsDump, TellsRow, TellsText, plain_reading};

use crate::checks::Failed;
use crate::faults::{DumpError, DumpFault};
use crate::reading::{Reading, Stop};
use dex_dump_rows::{Line, LineError, is_first_row, line_of};
use dex_rows::records::{Fields, Rows};
use dex_types::{AccountFault, Accounts, Limits, STANDARD};
use std::alloc::Global;
use std::marker::Model;

/// What the rows of a dump say: the accounts, and how many rows they are, with the first and the last.
#[derive(Drop)]
pub struct DumpRead {
    pub accounts: Accounts,
    pub count: u32,
}

/// The accounts of a dump within the program's limits, or its first faulty row.
pub fn read_dump(alloc: Global, bytes: &[u8]) -> Result<Accounts, DumpError>
    ensures answer { TellsText standard result bytes.now }
    ensures accepted { IfOk result (λ accounts. AreAccepted standard (accounts_of accounts)) }
    ensures bytes { IfOk result (λ accounts. HoldBytes (accounts_of accounts)) }
{
    read_dump_within(alloc, bytes, &STANDARD)
}

/// The accounts of a dump within these limits, or its first faulty row.
pub fn read_dump_within(alloc: Global, bytes: &[u8], limits: &Limits) -> Result<Accounts, DumpError>
    requires { AreLimits limits.now }
    ensures answer { TellsText limits.now result bytes.now }
    ensures accepted { IfOk result (λ accounts. AreAccepted limits.now (accounts_of accounts)) }
    ensures bytes { IfOk result (λ accounts. HoldBytes (accounts_of accounts)) }
{
    let mut rows = Rows::new(alloc, bytes);
    let dump = read_rows(alloc, &mut rows, limits)?;
    if rows.next_row(&mut Fields::new())? {
        return Err(grammar_fault(next_number(dump.count)).into());
    }
    Ok(dump.accounts)
}

/// The accounts of a dump within these limits that the next rows of a text are, up to the row `enddump`, or its first
/// faulty row. What stands behind it is not looked at.
pub fn read_rows(alloc: Global, rows: &mut Rows<'_>, limits: &Limits) -> Result<DumpRead, DumpError>
    requires { AreLimits limits.now }
    ensures answer { TellsDump limits.now result rows.old rows.new }
    ensures accepted { IfOk result (λ read. AreAccepted limits.now (accounts_of read.accounts)) }
    ensures bytes { IfOk result (λ read. HoldBytes (accounts_of read.accounts)) }
{
    let mut first = Fields::new();
    if !rows.next_row(&mut first)? || !is_first_row(&first) {
        return Err(grammar_fault(1).into());
    }
    read_accounts(alloc, rows, limits)
}

// The accounts of the rows after the first.
fn read_accounts(alloc: Global, rows: &mut Rows<'_>, limits: &Limits) -> Result<DumpRead, DumpError>
    ensures { TellsAccounts limits.now result rows.old rows.new }
{
    let mut reading = Reading::new(alloc, *limits);
    let mut number = 2;
    let mut row = Fields::new();
    'rows: while rows.next_row(&mut row)? {
        match read_row(alloc, &mut reading, number, &row) {
            Ok(true) => {
                return Ok(DumpRead {
                    accounts: reading.accounts,
                    count: number,
                });
            }
            Ok(false) => number = next_number(number),
            Err(error) => return Err(error),
        }
    }
    Err(grammar_fault(number).into())
}

// Adds what a row states, or answers that it is the last.
fn read_row(
    alloc: Global,
    reading: &mut Reading,
    number: u32,
    row: &Fields<'_>,
) -> Result<bool, DumpError>
    ensures { TellsRow result number (plain_reading reading.old) (plain_reading reading.new) row.now }
{
    let line = match line_of(alloc, row) {
        Ok(line) => line,
        Err(LineError::Grammar) => return Err(DumpError::Refused(grammar_fault(number))),
        Err(LineError::NoMemory) => return Err(DumpError::NoMemory),
    };
    if !reading.is_allowed(&line) {
        return Err(DumpError::Refused(grammar_fault(number)));
    }
    if let Line::End = line {
        return Ok(true);
    }
    match reading.take(line) {
        Ok(()) => Ok(false),
        Err(Stop::Failed(failed)) => Err(DumpError::Refused(fault_in(number, failed))),
        Err(Stop::NoMemory) => Err(DumpError::NoMemory),
    }
}

// The number of the row after one. No dump has so many rows that this is reached.
fn next_number(number: u32) -> u32
    ensures { result ≡ spec.next_number number }
{
    number.saturating_add(1)
}

// A row that is none of a dump.
fn grammar_fault(row: u32) -> DumpFault
    ensures { result ≡ spec.grammar_fault row }
{
    DumpFault {
        row,
        account: None,
        fault: AccountFault {
            kind: 1,
            place: 0,
            found: 0,
            wanted: 0,
        },
    }
}

// A fault of an account of a row.
fn fault_in(row: u32, failed: Failed) -> DumpFault
    ensures { result ≡ spec.fault_in row failed.account failed.fault }
{
    DumpFault {
        row,
        account: Some(failed.account),
        fault: failed.fault,
    }
}
