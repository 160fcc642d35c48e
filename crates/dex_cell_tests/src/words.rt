//! Rows from their words, and lines of entries.

use dex_statement::{InstructionWords, Parties};
use dex_types::{Entry, Row};
use std::alloc::AllocError;
use std::fmt::Write;

/// The row of an instruction, with its number. The clock is at 0.
pub(crate) fn row_of(words: InstructionWords, number: u32) -> Row {
    let InstructionWords {
        lane,
        parties,
        bytes,
    } = words;
    let Parties {
        market,
        signer,
        named,
        coin,
        pc,
        discount,
        referrer,
    } = parties;
    Row {
        lane,
        number,
        market,
        signer,
        named,
        coin,
        pc,
        discount,
        referrer,
        bytes,
        now: 0,
    }
}

/// Adds the line of an entry: its lane and row, the reply, and the movements.
pub(crate) fn add_line(lines: &mut String, entry: &Entry) -> Result<(), AllocError> {
    write!(lines, "{} {} {}", entry.lane, entry.row, entry.reply)?;
    for place in &entry.moves {
        if let Some(movement) = place {
            write!(lines, " {movement}")?;
        }
    }
    write!(lines, "\n")?;
    Ok(())
}
