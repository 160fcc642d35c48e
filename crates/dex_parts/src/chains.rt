//! Where a script may be cut into parts that follow each other.

ghost use Rattle.std.specs.Prelude.{◌≡◌, ◌<◌, ◌++◌, ◌∷◌, [], IfOk, OnOk, length, map};
ghost use Rattle.dex_world.specs.declared.places.RowPlaces.{RowPlaces as RowPlacesOf};
ghost use Rattle.dex_parts.specs.Cuts.{AreCutBy, AreInOrder, IsPart, numbers_of};

use dex_script_types::Script;
use dex_types::NoMemory;
use dex_world::RowPlaces;
use std::alloc::Global;

/// One count more.
fn push_count(counts: &mut Vec<usize>, count: usize) -> Result<(), NoMemory>
    ensures { OnOk result (counts.new.items ≡ counts.old.items ++ count ∷ []) }
{
    match counts.push(count) {
        Ok(()) => Ok(()),
        Err(_) => Err(NoMemory),
    }
}

/// How many of these rows a part has that begins with the first: `most`, or all that there are; one fewer where that
/// would part a swap; and two where the first two are a swap and `most` is one.
fn front_of(places: &[RowPlaces], most: usize) -> usize
    requires some { (0 < length places.now) × (0 < most) }
    requires order { AreInOrder (map (λ (at : RowPlacesOf). at.number) places.now) }
    ensures { IsPart most result (map (λ (at : RowPlacesOf). at.number) places.now) }
{
    if places.len() <= most {
        return places.len();
    }
    if places[most - 1].number < places[most].number {
        return most;
    }
    if most == 1 { 2 } else { most - 1 }
}

/// How many rows each part has, of rows at these places. Asks memory.
fn counts_of(alloc: Global, places: &[RowPlaces], most: usize) -> Result<Vec<usize>, NoMemory>
    requires some { 0 < most }
    requires order { AreInOrder (map (λ (at : RowPlacesOf). at.number) places.now) }
    ensures { IfOk result (λ counts. AreCutBy most counts.items
        (map (λ (at : RowPlacesOf). at.number) places.now)) }
{
    let mut counts = Vec::new(alloc);
    let mut left = places;
    'parts: while 0 < left.len() {
        let count = front_of(left, most);
        push_count(&mut counts, count)?;
        left = left.split_at(count).1;
    }
    Ok(counts)
}

/// How many rows each part of a chain has: as many as can be, but at most `rows`, or two that are a swap where that is
/// one. No swap has its legs in two parts. Asks memory.
pub fn chained(alloc: Global, script: &Script, rows: usize) -> Result<Vec<usize>, NoMemory>
    requires { 0 < rows }
    ensures { IfOk result (λ counts. AreCutBy rows counts.items (numbers_of script.now.rows)) }
{
    counts_of(alloc, &script.places, rows)
}
