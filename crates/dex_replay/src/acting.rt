//! All items of a script act on its cells, one after the other.

ghost use Rattle.std.specs.Prelude.{◌≡◌, ◌∷◌, List, map, option_copied, option_map};
ghost use Rattle.dex_world.specs.declared.places.RowPlaces.{RowPlaces as RowPlacesOf};
ghost use Rattle.dex_types.specs.Rows.{PlainRow, row_of};
ghost use Rattle.dex_world.specs.Items.{items_of};
ghost use Rattle.dex_bank.specs.Cells.{opened_of, world_of};
ghost use Rattle.dex_bank.specs.Opened.{opened};
ghost use Rattle.dex_bank.specs.Places.{ArePlacedIn};
ghost use Rattle.dex_script_types.specs.PlainScript.{PlainScript};
ghost use Rattle.dex_script_types.specs.Facts.{IsScript};
ghost use Rattle.dex_replay.specs.Acting.{HaveActed, IsNext};
ghost use Rattle.dex_replay.specs.Replays.{world_after};

use dex_act::PlacedRow;
use dex_bank::Cells;
use dex_types::Row;
use dex_world::RowPlaces;

/// The item that begins with a row acts: the row, or, where the one behind it has its number, both as the legs of a
/// swap. The row stands among the cells at the places `at`, and the one behind it at `at_behind`. Says how many rows
/// these are.
fn act_item(
    cells: &mut Cells,
    row: &Row,
    behind: Option<&Row>,
    at: &RowPlaces,
    at_behind: &RowPlaces,
) -> usize
    requires next { (script : PlainScript) × IsScript script × (others : List PlainRow) × (places : List RowPlacesOf)
        × IsNext script (row_of row.now) (option_map row_of (option_copied behind)) others places at.now at_behind.now
        cells.old }
    ensures acted { (script : PlainScript) (others : List PlainRow) (places : List RowPlacesOf) → IsScript script
        → IsNext script (row_of row.entry.now) (option_map row_of (option_copied behind.entry)) others places
        at.entry.now at_behind.entry.now cells.old
        → HaveActed script (row_of row.entry.now ∷ others) places result cells.new }
{
    if let Some(second) = behind {
        if second.number == row.number {
            let one = PlacedRow { row, places: at };
            let two = PlacedRow {
                row: second,
                places: at_behind,
            };
            cells.step_two(&one, &two);
            return 2;
        }
    }
    cells.step(&PlacedRow { row, places: at });
    1
}

/// All items of a script act in their order on the cells with which it starts: each row, or the two legs of a swap.
/// Each row's market and wallets stand among the cells at its places.
pub fn act_all(cells: Cells, rows: &[Row], places: &[RowPlaces]) -> Cells
    requires script { (script : PlainScript) × IsScript script × (cells ≡ opened script)
        × (map row_of rows.now ≡ script.rows) }
    requires places { ArePlacedIn cells (map row_of rows.now) places.now }
    ensures acted { (script : PlainScript) → IsScript script → cells ≡ opened script
        → map row_of rows.entry.now ≡ script.rows
        → world_of result ≡ world_after script (items_of script.rows) }
    ensures kept { opened_of result ≡ opened_of cells }
{
    let mut cells = cells;
    let mut rows = rows;
    let mut places = places;
    'item: while let Some((row, others)) = rows.split_first() {
        let at = &places[0];
        // Where no row is after, these are the row's own places.
        let at_behind = &places[others.len().min(1)];
        let count = act_item(&mut cells, row, others.first(), at, at_behind);
        rows = rows.split_at(count).1;
        places = places.split_at(count).1;
    }
    cells
}
