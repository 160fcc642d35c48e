//! Where pieces of rows begin, as it is guessed from their text.

use dex_rows::plain::PlainRows;
use dex_rows::records::{Fields, Rows};
use dex_statement::{Statement, statement_of};
use std::alloc::Global;

/// The number of a row, and the clock before it.
#[derive(Clone, Copy)]
pub(crate) struct PieceStart {
    pub(crate) number: u32,
    pub(crate) clock: i64,
}

/// Where the rows after these begin, of which the first stands here: right where a line feed stands before each row,
/// and nothing but rows between. No clause says so: whoever puts pieces together looks, and reads a piece anew that
/// begins elsewhere.
pub(crate) fn place_behind(alloc: Global, rows: &PlainRows<'_>, first: PieceStart) -> PieceStart {
    let clock = match rows.from_last(b"\nclock,") {
        None => first.clock,
        Some(last) => clock_in(alloc, &last).unwrap_or(first.clock),
    };
    let count = rows.line_feeds().min(u32::MAX as usize) as u32;
    PieceStart {
        number: first.number.saturating_add(count),
        clock,
    }
}

// The clock that the first of these rows sets, if it does.
fn clock_in(alloc: Global, rows: &PlainRows<'_>) -> Option<i64> {
    let mut row = Fields::new();
    match Rows::of_plain(rows).next_row(&mut row) {
        Ok(true) => match statement_of(alloc, &row) {
            Ok(Statement::Clock(now)) => Some(now),
            Ok(_) | Err(_) => None,
        },
        Ok(false) | Err(_) => None,
    }
}
