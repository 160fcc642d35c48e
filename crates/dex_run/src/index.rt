//! Where the items of each lane begin.

ghost use Rattle.std.specs.Prelude.{◌≡◌, ◌<◌, IfOk, false, length, map, true};
ghost use Rattle.dex_types.specs.Rows.{row_of};
ghost use Rattle.dex_script_types.specs.PlainScript.{PlainScript};
ghost use Rattle.dex_script_types.specs.Facts.{AreRows};
ghost use Rattle.dex_script_types.specs.Places.{AreBeside};
ghost use Rattle.dex_run.specs.LaneItems.{IsAlone, IsIndex, IsSwapAt, OfRows};

use crate::columns::columns_for;
use dex_script_types::RowList;
use dex_types::{NoMemory, add};
use dex_world::RowPlaces;
use std::alloc::Global;

/// Whether the row at a place and the one after it are the legs of one swap: they have one number, as what stands
/// beside them tells.
pub(crate) fn is_swap(places: &[RowPlaces], place: usize) -> bool
    requires { place < length places.now }
    ensures yes { result ≡ true → OfRows places.now (λ rows. IsSwapAt rows place) }
    ensures no { result ≡ false → OfRows places.now (λ rows. IsAlone rows place) }
{
    places.len() - place > 1 && places[place].number == places[place + 1].number
}

/// For each lane of a script the places at which its items begin, by one pass over what stands beside the rows. Asks
/// memory.
pub(crate) fn places_by_lane(
    alloc: Global,
    lanes: u32,
    rows: &RowList,
    places: &[RowPlaces],
) -> Result<Vec<Vec<usize>>, NoMemory>
    requires rows { (script : PlainScript) × AreRows script × (map row_of rows.now ≡ script.rows)
        × (lanes ≡ script.lanes) }
    requires beside { AreBeside (map row_of rows.now) places.now }
    ensures count { IfOk result (λ by_lane. length by_lane.items ≡ lanes) }
    ensures index { IfOk result (λ by_lane. IsIndex rows.now by_lane.items) }
{
    let Some(columns) = columns_for(alloc, lanes as usize, 0) else {
        return Err(NoMemory);
    };
    let mut by_lane = columns;
    let mut place = 0;
    'item: while place < rows.len() {
        add(&mut by_lane[places[place].lane as usize], place)?;
        if is_swap(places, place) {
            place += 2;
        } else {
            place += 1;
        }
    }
    Ok(by_lane)
}
