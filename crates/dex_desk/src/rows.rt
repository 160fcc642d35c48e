//! What a row asks of an open desk.

ghost use Rattle.dex_statement.specs.Stated.{PlainInstruction as WordsOf};
ghost use Rattle.dex_desk.specs.Asking.{TellsAsked, asked_by, asked_of, book_of, dump_of};

use dex_rows::addresses::address_word;
use dex_rows::numbers::u32_word;
use dex_rows::records::{Fields, field_at, field_count};
use dex_statement::{
    FaultKind, InstructionWords, RowError, SetupCode, Statement, SwapWords, read_instruction,
    statement_of,
};
use dex_types::Address;
use std::alloc::Global;

/// What a row asks.
#[derive(Drop)]
pub enum Asked {
    /// An instruction, whose words stand in the buffer for them.
    Instruction,
    /// A swap.
    Swap(SwapWords),
    /// The clock of the instruction rows that follow.
    Clock(i64),
    /// The prices of a market, so many on each side, from the best on.
    Book { market: Address, depth: u32 },
    /// All accounts, as a dump.
    Dump,
}

/// What a row asks, or the lowest fault that it has by itself. A setup row that is right by itself comes too late.
#[tactic(auto, unfolding(crate::specs::Asking::asked_of))]
pub fn read_row(
    alloc: Global,
    row: &Fields<'_>,
    words: &mut InstructionWords,
) -> Result<Asked, RowError>
    ensures { TellsAsked result words.new (asked_of row.now) }
{
    let word = field_at(row, 0);
    if word == b"book".as_slice() {
        book_row(row)
    } else if word == b"dump".as_slice() {
        dump_row(row)
    } else {
        stated(alloc, row, words)
    }
}

/// A `book` row.
#[tactic(auto, unfolding(crate::specs::Asking::book_of))]
fn book_row(row: &Fields<'_>) -> Result<Asked, RowError>
    ensures { (words : WordsOf) → TellsAsked result words (book_of row.now) }
{
    if field_count(row) != 3 {
        return Err(RowError::Fault(FaultKind::FieldCount));
    }
    let Some(depth) = u32_word(field_at(row, 2)) else {
        return Err(RowError::Fault(FaultKind::BadNumber));
    };
    let Some(market) = address_word(field_at(row, 1)) else {
        return Err(RowError::Fault(FaultKind::BadLabel));
    };
    Ok(Asked::Book { market, depth })
}

/// A `dump` row.
#[tactic(auto, unfolding(crate::specs::Asking::dump_of))]
fn dump_row(row: &Fields<'_>) -> Result<Asked, RowError>
    ensures { (words : WordsOf) → TellsAsked result words (dump_of row.now) }
{
    if field_count(row) != 1 {
        return Err(RowError::Fault(FaultKind::FieldCount));
    }
    Ok(Asked::Dump)
}

/// Any other row.
fn stated(alloc: Global, row: &Fields<'_>, words: &mut InstructionWords) -> Result<Asked, RowError>
    ensures { TellsAsked result words.new (asked_by row.now) }
{
    if read_instruction(alloc, row, words)? {
        Ok(Asked::Instruction)
    } else {
        other(alloc, row, words)
    }
}

/// Any row that is no `do` row.
#[inline(never)]
fn other(alloc: Global, row: &Fields<'_>, words: &mut InstructionWords) -> Result<Asked, RowError>
    ensures { TellsAsked result words.new (asked_by row.now) }
{
    match statement_of(alloc, row)? {
        Statement::Instruction(read) => {
            *words = read;
            Ok(Asked::Instruction)
        }
        Statement::Swap(swap) => Ok(Asked::Swap(swap)),
        Statement::Clock(now) => Ok(Asked::Clock(now)),
        Statement::Program(_) => Err(RowError::Fault(FaultKind::SetupRefused(SetupCode::Program))),
        Statement::Mint { .. }
        | Statement::Srm(_)
        | Statement::Msrm(_)
        | Statement::Wallet { .. }
        | Statement::Market(_)
        | Statement::Orders { .. } => {
            Err(RowError::Fault(FaultKind::SetupRefused(SetupCode::Late)))
        }
    }
}
