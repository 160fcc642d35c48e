//! Lists that are dealt into piles, and gathered.

ghost use Rattle.std.specs.Prelude.{◌≡◌, ◌<◌, ◌++◌, ◌∷◌, [], All, IfNone, IfOk, IfSome, List, OnOk};
ghost use Rattle.std.specs.Prelude.{length, slice_index_or, slice_set};
ghost use Rattle.dex_batch.specs.Parts.{AreAsLong, AreParts};

use dex_types::{NoMemory, add};
use std::alloc::Global;
use std::marker::Model;
use std::mem;

/// Items of one number, in their order.
#[derive(Drop)]
pub struct Pile<T> {
    items: Vec<T>,
}

impl<T> Model for Pile<T> {
    ghost use Rattle.std.specs.Prelude.{List};

    ghost Value = { List T };

    ghost view = { λ pile. pile.items.items };
}

impl<T: Drop> Pile<T> {
    /// These items as a pile.
    pub(crate) fn of(items: Vec<T>) -> Pile<T>
        ensures { result ≡ items.items }
    {
        Pile { items }
    }
}

/// So many piles without an item.
fn no_piles<T: Drop>(alloc: Global, count: usize) -> Result<Vec<Pile<T>>, NoMemory>
    ensures count { IfOk result (λ piles. length piles.items ≡ count) }
    ensures none { IfOk result (λ piles. All (λ pile. pile ≡ []) piles.items) }
{
    let mut piles = Vec::new(alloc);
    for _ in 0..count {
        add(&mut piles, Pile::of(Vec::new(alloc)))?;
    }
    Ok(piles)
}

/// Puts an item on one of these piles.
fn put_on<T: Drop>(piles: &mut Vec<Pile<T>>, number: usize, item: T) -> Result<(), NoMemory>
    requires { number < length piles.old.items }
    ensures { OnOk result ((d : List T)
        → piles.new.items ≡ slice_set piles.old.items number (slice_index_or piles.old.items number d ++ item ∷ [])) }
{
    add(&mut piles[number].items, item)
}

/// Takes the last item of one of these piles.
fn take_from<T: Drop>(piles: &mut Vec<Pile<T>>, number: usize) -> Option<T>
    requires { number < length piles.old.items }
    ensures some { IfSome result (λ item. (left : List T) × (piles.new.items ≡ slice_set piles.old.items number left)
        × ((d : List T) → slice_index_or piles.old.items number d ≡ left ++ item ∷ [])) }
    ensures none { IfNone result ((d : List T) → slice_index_or piles.old.items number d ≡ []) }
{
    piles[number].items.pop()
}

/// Takes all items of one of these piles.
pub(crate) fn take_all<T: Drop>(alloc: Global, piles: &mut Vec<Pile<T>>, number: usize) -> Vec<T>
    requires { number < length piles.old.items }
    ensures taken { (d : List T) → result.items ≡ slice_index_or piles.old.items number d }
    ensures left { piles.new.items ≡ slice_set piles.old.items number [] }
{
    mem::replace(&mut piles[number].items, Vec::new(alloc))
}

/// Deals items into so many piles: each to that of the number beside it. Their order stays.
pub(crate) fn deal<T: Drop>(
    alloc: Global,
    items: Vec<T>,
    numbers: &[usize],
    count: usize,
) -> Result<Vec<Pile<T>>, NoMemory>
    requires beside { length numbers.now ≡ length items.items }
    requires within { All (λ number. number < count) numbers.now }
    ensures count { IfOk result (λ piles. length piles.items ≡ count) }
    ensures parts { IfOk result (λ piles. AreParts T numbers.now items.items piles.items) }
{
    let mut piles = no_piles(alloc, count)?;
    let mut place = 0;
    for item in items {
        let number = numbers[place];
        put_on(&mut piles, number, item)?;
        place += 1;
    }
    Ok(piles)
}

/// Gathers the items of piles into one list, of which they are then the parts.
pub(crate) fn gather<T: Drop>(
    alloc: Global,
    piles: Vec<Pile<T>>,
    numbers: &[usize],
) -> Result<Vec<T>, NoMemory>
    requires within { All (λ number. number < length piles.items) numbers.now }
    requires long { AreAsLong numbers.now piles.items }
    ensures { IfOk result (λ items. AreParts T numbers.now items.items piles.items) }
{
    let mut piles = piles;
    let mut items = Vec::new(alloc);
    for place in (0..numbers.len()).rev() {
        let number = numbers[place];
        match take_from(&mut piles, number) {
            Some(item) => add(&mut items, item)?,
            // A pile has as many items as its number stands here.
            None => unreachable!(),
        }
    }
    items.reverse();
    Ok(items)
}
