//! The set-up of a session: a script, of which the accounts are taken that it leaves.

ghost use Rattle.std.specs.Prelude.{◌≡◌, IfOk, pos};
ghost use Rattle.dex_types.specs.Accounts.{accounts_of};
ghost use Rattle.dex_rows.specs.Records.{rows_of};
ghost use Rattle.dex_state.specs.Accepted.{AreAccepted};
ghost use Rattle.dex_types.specs.declared.limits.TheConstants.{WIDE as wide};
ghost use Rattle.dex_script.specs.Names.{AreNames};
ghost use Rattle.dex_script.specs.Pieces.{number_after};
ghost use Rattle.dex_desk.specs.SetUps as spec;
ghost use Rattle.dex_desk.specs.SetUps.{TellsOpened};

use crate::block::Block;
use dex_answers::{StatusText, no_script};
use dex_replay::replay;
use dex_rows::records::{Fields, Rows, field_at};
use dex_script::{Names, a_script_has_its_limits, read_script_within};
use dex_script_types::{addresses_of_markets, addresses_of_wallets};
use dex_statement::{RowError, Statement, statement_of};
use dex_types::{Accounts, NoMemory, WIDE};
use std::alloc::Global;

/// What a set-up came to.
#[derive(Drop)]
pub enum Opened {
    /// A desk is open: no row was accepted yet.
    Desk(Block),
    /// The rows are no script: why.
    Refused(StatusText),
}

/// Opens a desk over the accounts that a script leaves. The next row's number and its clock are as they are behind the
/// script.
pub fn open_desk(alloc: Global, text: &[u8]) -> Result<Opened, NoMemory>
    ensures { IfOk result (λ opened. TellsOpened opened text.now) }
{
    match read_script_within(alloc, text, false, &WIDE) {
        Ok(script) => {
            let (number, clock) = behind(alloc, text)?;
            let program = script.program;
            a_script_has_its_limits();
            let outcome = replay(alloc, script)?;
            let names = names_of(alloc, &outcome.accounts)?;
            Ok(Opened::Desk(Block::of(alloc, outcome.accounts, names, program, clock, number)))
        }
        Err(error) => Ok(Opened::Refused(no_script(alloc, error)?)),
    }
}

/// The names of accounts.
fn names_of(alloc: Global, accounts: &Accounts) -> Result<Names, NoMemory>
    requires { AreAccepted wide (accounts_of accounts.now) }
    ensures { IfOk result (λ names. AreNames names (accounts_of accounts.now)) }
{
    let markets = addresses_of_markets(alloc, &accounts.markets)?;
    let wallets = addresses_of_wallets(alloc, &accounts.wallets)?;
    Names::of(alloc, &markets, &wallets)
}

/// The number of the row behind a script, and the clock there.
fn behind(alloc: Global, text: &[u8]) -> Result<(u32, i64), NoMemory>
    ensures number { IfOk result (λ found. found.0 ≡ number_after 1 (rows_of text.now)) }
    ensures clock { IfOk result (λ found. found.1 ≡ spec.clock_after (pos 0) (rows_of text.now)) }
{
    let mut rows = Rows::new(alloc, text);
    let mut row = Fields::new();
    let mut number: u32 = 1;
    let mut clock: i64 = 0;
    'rows: while rows.next_row(&mut row)? {
        clock = clock_behind(alloc, &row, clock)?;
        number = number.saturating_add(1);
    }
    Ok((number, clock))
}

/// The clock behind a row.
fn clock_behind(alloc: Global, row: &Fields<'_>, before: i64) -> Result<i64, NoMemory>
    ensures { IfOk result (λ clock. clock ≡ spec.clock_behind before row.now) }
{
    if field_at(row, 0) != b"clock".as_slice() {
        return Ok(before);
    }
    match statement_of(alloc, row) {
        Ok(Statement::Clock(now)) => Ok(now),
        Ok(_) | Err(RowError::Fault(_)) => Ok(before),
        Err(RowError::NoMemory) => Err(NoMemory),
    }
}
