//! Instruction rows.

ghost use Rattle.std.specs.Prelude.{◌≡◌, [], IfErr, IfOk, Ok, true};
ghost use Rattle.dex_statement.specs.declared.statement.Statement.TheVariants.{Instruction};
ghost use Rattle.dex_statement.specs.declared.forms.Form.TheVariants as form;
ghost use Rattle.dex_statement.specs.Statements as statements;
ghost use Rattle.dex_statement.specs.Telling.{Tells, TellsFault, TellsIn};

use crate::faults::{FaultKind, RowError};
use crate::fields::{bytes_at, u32_at};
use crate::order_words::read_data;
use crate::parties::{Parties, read_parties};
use crate::statement::Statement;
use dex_rows::printable::row_is_printable;
use dex_rows::records::{Fields, field_at, field_count};
use std::alloc::Global;
use std::marker::Model;

/// What an instruction row states: its lane, whom it names, and the instruction's bytes.
#[derive(Debug, Drop)]
pub struct InstructionWords {
    pub lane: u32,
    pub parties: Parties,
    pub bytes: Vec<u8>,
}

impl Model for InstructionWords {
    ghost use Rattle.dex_statement.specs.Stated.{PlainInstruction};

    ghost Value = { PlainInstruction };

    ghost view = { λ s. record { lane = s.lane; parties = s.parties; bytes = s.bytes.items } };
}

impl InstructionWords {
    /// No words, to be filled. It takes no memory.
    pub fn none(alloc: Global) -> InstructionWords {
        InstructionWords {
            lane: 0,
            parties: Parties::none(alloc),
            bytes: Vec::new(alloc),
        }
    }

    /// The instruction's bytes, which are taken out.
    pub fn take_bytes(&mut self) -> Vec<u8>
        ensures bytes { result.items ≡ self.old.bytes }
        ensures left { self.new ≡ record self.old { bytes = [] } }
    {
        let alloc = *self.bytes.allocator();
        std::mem::replace(&mut self.bytes, Vec::new(alloc))
    }
}

/// What an `ix` row states, whose last field is the instruction's bytes in base64.
#[inline(never)]
#[tactic(auto, unfolding(crate::specs::Statements::bytes_row))]
pub(crate) fn bytes_row(alloc: Global, row: &Fields<'_>) -> Result<Statement, RowError>
    ensures { Tells result (statements.stated form.Bytes row.now) }
{
    if field_count(row) != 10 {
        return Err(RowError::Fault(FaultKind::FieldCount));
    }
    let mut words = InstructionWords::none(alloc);
    words.lane = u32_at(row, 1)?;
    words.bytes = bytes_at(alloc, row, 9)?;
    read_parties(row, &mut words.parties)?;
    Ok(Statement::Instruction(words))
}

/// What a `do` row states, whose last field is the instruction in words.
pub(crate) fn words_row(alloc: Global, row: &Fields<'_>) -> Result<Statement, RowError>
    ensures { Tells result (statements.stated form.Words row.now) }
{
    let mut words = InstructionWords::none(alloc);
    read_words(alloc, row, &mut words)?;
    Ok(Statement::Instruction(words))
}

/// Reads a `do` row into words that are there, and answers whether the row is one. Of any other row, and of one that
/// has a byte which is not printable, `statement_of` tells what it states. Nothing is moved: a script is nearly all
/// `do` rows.
#[tactic(auto, unfolding(crate::specs::Statements::statement_of))]
pub fn read_instruction(
    alloc: Global,
    row: &Fields<'_>,
    words: &mut InstructionWords,
) -> Result<bool, RowError>
    ensures read { IfOk result (λ is. is ≡ true → statements.statement_of row.now ≡ Ok (Instruction words.new)) }
    ensures fault { IfErr result (λ error. TellsFault error (statements.statement_of row.now)) }
{
    if matches!(field_at(row, 0), b"do") && row_is_printable(row) {
        read_words(alloc, row, words)?;
        Ok(true)
    } else {
        Ok(false)
    }
}

/// Reads a `do` row into words.
#[inline(never)]
#[tactic(auto, unfolding(crate::specs::Statements::words_row))]
fn read_words(alloc: Global, row: &Fields<'_>, words: &mut InstructionWords) -> Result<(), RowError>
    ensures { TellsIn result words.new (statements.words_row row.now) }
{
    if field_count(row) != 10 {
        return Err(RowError::Fault(FaultKind::FieldCount));
    }
    read_data(alloc, field_at(row, 9), &mut words.bytes)?;
    words.lane = u32_at(row, 1)?;
    read_parties(row, &mut words.parties)
}
