//! A script's rows, window by window.

ghost use Rattle.std.specs.Prelude.{◌≡◌, ◌<◌, ◌≤◌, IfOk, length, map};
ghost use Rattle.dex_types.specs.Rows.{row_of};
ghost use Rattle.dex_batch.specs.Acting.{CanAllAct, HaveActed};
ghost use Rattle.dex_batch.specs.Groups.{AreGroups};

use crate::acting::act_all;
use crate::groups::Groups;
use crate::shares::{Window, act_apart};
use dex_bank::Cells;
use dex_io::Pace;
use dex_types::{NoMemory, Row};
use dex_world::RowPlaces;
use std::alloc::Global;
use std::marker::{Send, Sync};
use std::thread::Threads;

/// How many rows the first window has.
const FIRST: usize = 4096;

/// How many rows a window has at least, but for the last one.
const LEAST: usize = 512;

/// How many rows the next window has: half as many where one component had most of the rows, else twice as many.
fn next_span(span: usize, rows: usize, largest: usize) -> usize
    ensures { 0 < result }
{
    if largest > rows / 2 {
        (span / 2).max(LEAST)
    } else {
        usize::saturating_mul(span, 2).max(LEAST)
    }
}

/// How many of the rows that are left are in a window of about so many: all where fewer than a window would be left.
fn window_of(left: usize, span: usize) -> usize
    requires left { 0 < left }
    requires span { 0 < span }
    ensures some { 0 < result }
    ensures within { result ≤ left }
{
    if left / 2 < span { left } else { span }
}

/// The rows of a window act in their order: by groups, where they are of several, else all on this thread.
fn act_window<R: Threads + Sync, P: Pace + Sync>(
    rt: &R,
    alloc: Global,
    cells: Cells,
    groups: &Groups,
    rows: &[Row],
    places: &[RowPlaces],
    pace: &P,
) -> Result<Cells, NoMemory>
    requires groups { AreGroups (length cells.markets) (length cells.wallets) groups.now }
    requires can { CanAllAct (map row_of rows.now) places.now cells }
    ensures { IfOk result (λ left. HaveActed (map row_of rows.now) (map row_of rows.now) cells left) }
{
    if groups.count > 1 {
        if let Some(numbers) = groups.of_rows(alloc, places)? {
            let window = Window {
                rows,
                numbers: &numbers,
                pace,
            };
            return act_apart(rt, alloc, cells, groups, &window);
        }
    }
    let mut cells = cells;
    act_all(&mut cells, rows, places, pace);
    Ok(cells)
}

/// How many markets and wallets there are.
#[derive(Clone, Copy)]
pub(crate) struct Sizes {
    pub(crate) markets: usize,
    pub(crate) wallets: usize,
}

/// All rows act in their order, each at its places, on so many threads at most. This is what is left of the cells.
pub(crate) fn work_all<R: Threads + Sync, P: Pace + Sync>(
    rt: &R,
    alloc: Global,
    cells: Cells,
    sizes: Sizes,
    rows: &[Row],
    places: &[RowPlaces],
    workers: usize,
    pace: &P,
) -> Result<Cells, NoMemory>
    requires sizes { (length cells.markets ≡ sizes.markets) × (length cells.wallets ≡ sizes.wallets) }
    requires can { CanAllAct (map row_of rows.now) places.now cells }
    ensures { IfOk result (λ left. HaveActed (map row_of rows.now) (map row_of rows.now) cells left) }
{
    let mut cells = cells;
    let mut rows = rows;
    let mut places = places;
    let mut span = FIRST;
    'window: while !rows.is_empty() {
        let count = window_of(rows.len(), span);
        let (now, later) = rows.split_at(count);
        let (now_places, later_places) = places.split_at(count);
        let groups = Groups::of(alloc, now_places, sizes.markets, sizes.wallets, workers)?;
        cells = act_window(rt, alloc, cells, &groups, now, now_places, pace)?;
        span = next_span(span, count, groups.largest);
        rows = later;
        places = later_places;
    }
    Ok(cells)
}
