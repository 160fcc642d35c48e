//! Rows that act one after the other.

ghost use Rattle.std.specs.Prelude.{map};
ghost use Rattle.dex_types.specs.Rows.{row_of};
ghost use Rattle.dex_batch.specs.Acting.{CanAllAct, HaveActed};
ghost use Rattle.dex_batch.specs.Parts.{part};
ghost use Rattle.dex_batch.specs.Shares.{IsReady, share};

use crate::shares::Window;
use dex_act::PlacedRow;
use dex_bank::Cells;
use dex_io::Pace;
use dex_types::Row;
use dex_world::RowPlaces;

/// All rows act in their order, each at its places.
pub(crate) fn act_all<P: Pace>(cells: &mut Cells, rows: &[Row], places: &[RowPlaces], pace: &P)
    requires { CanAllAct (map row_of rows.now) places.now cells.old }
    ensures { HaveActed (map row_of rows.entry.now) (map row_of rows.entry.now) cells.old cells.new }
{
    for place in 0..rows.len() {
        let row = &rows[place];
        let at = places[place];
        pace.inside(row.lane, row.number);
        cells.step(&PlacedRow { row, places: &at });
    }
}

/// The rows of a group act in their order, on its cells.
pub(crate) fn act_own<P: Pace>(cells: &mut Cells, window: &Window<'_, P>, number: usize)
    requires { IsReady (share (map row_of window.now.rows.now) window.now.numbers.now number cells.old) }
    ensures { HaveActed (part window.entry.now.numbers.now number (map row_of window.entry.now.rows.now))
        (map row_of window.entry.now.rows.now) cells.old cells.new }
{
    let rows = window.rows;
    let numbers = window.numbers;
    for place in 0..rows.len() {
        let row = &rows[place];
        let own = numbers[place];
        if own == number {
            window.pace.inside(row.lane, row.number);
            cells.step(row);
        }
    }
}
