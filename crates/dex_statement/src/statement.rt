//! What a row states by itself.

ghost use Rattle.dex_statement.specs.Statements as statements;
ghost use Rattle.dex_statement.specs.Telling.{Tells};

use crate::faults::{FaultKind, RowError};
use crate::forms::{Form, form_of};
use crate::instruction::{InstructionWords, bytes_row, words_row};
use crate::setup::{
    MarketWords, clock_of, discount_of, market_of, mint_of, orders_of, program_of, wallet_of,
};
use crate::swap::{SwapWords, swap_row};
use dex_rows::printable::row_is_printable;
use dex_rows::records::{Fields, field_at};
use dex_types::{Address, Program};
use std::alloc::Global;

/// What a row of a script states by itself.
#[derive(Debug, Drop)]
pub enum Statement {
    /// The program that runs.
    Program(Program),
    /// The clock of the instruction rows that follow.
    Clock(i64),
    /// A mint, and how many decimals it shows.
    Mint {
        address: Address,
        decimals: u8,
    },
    /// The mint of SRM.
    Srm(Address),
    /// The mint of MSRM.
    Msrm(Address),
    /// A wallet of a mint, the person whose it is, and its amount in native units.
    Wallet {
        address: Address,
        mint: Address,
        owner: Address,
        amount: u64,
    },
    /// A market.
    Market(MarketWords),
    /// An open-orders account that is reserved on a market.
    Orders {
        market: Address,
        address: Address,
    },
    /// An instruction.
    Instruction(InstructionWords),
    /// A swap.
    Swap(SwapWords),
}

/// What a row states by itself, or the lowest fault that it has by itself: an unprintable byte, an unknown word,
/// another number of fields or words, a bad number, or a bad address word.
#[tactic(auto, unfolding(crate::specs::Statements::statement_of))]
pub fn statement_of(alloc: Global, row: &Fields<'_>) -> Result<Statement, RowError>
    ensures { Tells result (statements.statement_of row.now) }
{
    if !row_is_printable(row) {
        return Err(RowError::Fault(FaultKind::BadCsv));
    }
    match form_of(field_at(row, 0)) {
        None => Err(RowError::Fault(FaultKind::UnknownRow)),
        Some(form) => stated(alloc, form, row),
    }
}

/// What a row of a form states.
fn stated(alloc: Global, form: Form, row: &Fields<'_>) -> Result<Statement, RowError>
    ensures { Tells result (statements.stated form row.now) }
{
    match form {
        Form::Program => Ok(program_of(row)?),
        Form::Clock => Ok(clock_of(row)?),
        Form::Mint => Ok(mint_of(row)?),
        Form::Srm => Ok(Statement::Srm(discount_of(row)?)),
        Form::Msrm => Ok(Statement::Msrm(discount_of(row)?)),
        Form::Wallet => Ok(wallet_of(row)?),
        Form::Orders => Ok(orders_of(row)?),
        Form::Market => Ok(Statement::Market(market_of(alloc, row)?)),
        Form::Bytes => bytes_row(alloc, row),
        Form::Words => words_row(alloc, row),
        Form::Swap => swap_row(alloc, row),
    }
}
