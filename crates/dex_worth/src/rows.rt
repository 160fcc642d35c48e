//! The row of an entry.

ghost use Rattle.std.specs.Prelude.{◌≡◌, ◌≤◌, ◌<◌, map, length, get_or, MatchOption, None, Some};
ghost use Rattle.std.specs.List.{AllPairs};
ghost use Rattle.dex_types.specs.declared.rows.Row.{Row as RowOf};
ghost use Rattle.dex_types.specs.Rows.{PlainRow, row_of};
ghost use Rattle.dex_script_types.specs.Firsts.{first_of};
ghost use Rattle.dex_replay.specs.EntryCalls.{is_row_on};

use dex_types::{Address, Row, is_same};

/// Whether a row is on this market and has this number.
fn is_on(row: &Row, market: Address, number: u32) -> bool
    ensures { result ≡ is_row_on market number (row_of row.entry.now) }
{
    row.number == number && is_same(row.market, market)
}

/// The place of the row of a number on a market. The rows stand by numbers that never fall.
pub fn find_row(rows: &[Row], market: Address, number: u32) -> Option<usize>
    requires { AllPairs (λ (one other : PlainRow). one.number ≤ other.number) (map row_of rows.now) }
    ensures { MatchOption result
        (first_of (is_row_on market number) (λ (row : PlainRow). row) (map row_of rows.now) ≡ None)
        (λ place. (place < length rows.now) × ((d : RowOf)
        → first_of (is_row_on market number) (λ (row : PlainRow). row) (map row_of rows.now)
        ≡ Some (row_of (get_or rows.now place d)))) }
{
    let before = rows.partition_point(|row| row.number < number);
    for place in before..rows.len() {
        if is_on(&rows[place], market, number) {
            return Some(place);
        }
    }
    None
}
