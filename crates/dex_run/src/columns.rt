//! Passes by the gates that they are of.

ghost use Rattle.std.specs.Prelude.{◌<◌, ◌≤◌, All, IfSome, length, vec_capacity, vec_len};
ghost use Rattle.std.specs.List.{AllZip};
ghost use Rattle.dex_run.specs.Closing.{AreClosed};
ghost use Rattle.dex_run.specs.Columns.{AreEmpty, AreLonger, CanClose, IsClosed, IsLonger, IsRoom};

use crate::of_cell::OfCell;
use dex_gate::{Gate, Pass};
use std::alloc::Global;

/// Writes an item after the others, where room for it is reserved.
pub(crate) fn append<T: Drop>(items: &mut Vec<T>, item: T)
    requires { vec_len items.old < vec_capacity items.old }
    ensures { IsLonger items.old item items.new }
{
    items.push(item).unwrap();
}

/// So many empty columns, each with room for this many items, if there is memory for them.
pub(crate) fn columns_for<T: Drop>(alloc: Global, count: usize, room: usize) -> Option<Vec<Vec<T>>>
    ensures { IfSome result (λ columns. AreEmpty count room columns.items) }
{
    let mut columns = Vec::with_capacity(alloc, count).ok()?;
    for _ in 0..count {
        append(&mut columns, Vec::with_capacity(alloc, room).ok()?);
    }
    Some(columns)
}

/// Puts each item into the column at its place.
pub(crate) fn hand_out<T: Drop>(items: Vec<T>, columns: &mut Vec<Vec<T>>)
    requires count { vec_len items ≤ length columns.old.items }
    requires room { All (λ column. vec_len column < vec_capacity column) columns.old.items }
    ensures { AreLonger columns.old.items items.items columns.new.items }
{
    let mut place = 0;
    for item in items {
        append(&mut columns[place], item);
        place += 1;
    }
}

/// The cells of the values that gates give, each for all its passes, written into the room for them.
pub(crate) fn closed_cells<V: OfCell + Drop>(
    mut gates: Vec<Gate<V>>,
    mut columns: Vec<Vec<Pass<V>>>,
    mut cells: Vec<V::Cell>,
) -> Vec<V::Cell>
    requires passes { AllZip (λ gate column. CanClose gate column.items) gates.items columns.items }
    requires room { IsRoom (vec_len gates) cells }
    ensures { AreClosed (IsClosed V.entries V.lane V.origin) V.kept V.gives gates.items columns.items result.items }
{
    while let Some(gate) = gates.pop() {
        // There are as many columns as gates.
        let Some(column) = columns.pop() else {
            unreachable!()
        };
        append(&mut cells, gate.close(column).leave());
    }
    cells.reverse();
    cells
}
