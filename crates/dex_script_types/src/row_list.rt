//! The rows of a script, in pieces.

ghost use Rattle.std.specs.Prelude.{◌≡◌, ◌<◌, ◌++◌, [], IfOk, OnOk, length, slice_index_or};
ghost use Rattle.dex_types.specs.declared.rows.Row.{Row as RowOf};
ghost use Rattle.dex_script_types.specs.RowLists.{rows_in};

use dex_types::{NoMemory, Row};
use std::alloc::Global;
use std::marker::Model;

/// Rows in their order, in pieces that follow each other: what several threads read is put together without moving a
/// row. A contract sees the rows, one after the other.
#[derive(Debug, Drop)]
pub struct RowList {
    pieces: Vec<Vec<Row>>,
    count: usize,
}

impl Model for RowList {
    ghost use Rattle.std.specs.Prelude.{List};
    ghost use Rattle.dex_types.specs.declared.rows.Row.{Row};
    ghost use Rattle.dex_script_types.specs.RowLists.{IsCounted, rows_inside};

    ghost Value = { List Row };

    ghost view = { rows_inside };

    ghost invariant = { IsCounted };
}

impl RowList {
    /// No rows.
    pub fn new(alloc: Global) -> RowList
        ensures { result ≡ [] }
    {
        RowList {
            pieces: Vec::new(alloc),
            count: 0,
        }
    }

    /// How many rows there are.
    pub fn len(&self) -> usize
        ensures { result ≡ length self.now }
    {
        self.count
    }

    /// The row at a place.
    pub fn at(&self, place: usize) -> &Row
        requires { place < length self.now }
        ensures { (default : RowOf) → result.now ≡ slice_index_or self.now place default }
    {
        let mut left = place;
        for piece in &self.pieces {
            if left < piece.len() {
                return &piece[left];
            }
            left -= piece.len();
        }
        // By the condition a piece has the place.
        unreachable!()
    }

    /// Puts these rows after the others, as one more piece. Asks memory.
    pub fn push_piece(&mut self, piece: Vec<Row>) -> Result<(), NoMemory>
        ensures { OnOk result (self.new ≡ self.old ++ piece.items) }
    {
        let Some(count) = self.count.checked_add(piece.len()) else {
            return Err(NoMemory);
        };
        match self.pieces.push(piece) {
            Ok(()) => {
                self.count = count;
                Ok(())
            }
            Err(_) => Err(NoMemory),
        }
    }

    /// Puts the pieces of another list after these. Asks memory.
    pub fn append(&mut self, more: RowList) -> Result<(), NoMemory>
        ensures { OnOk result (self.new ≡ self.old ++ more) }
    {
        for piece in more.pieces {
            self.push_piece(piece)?;
        }
        Ok(())
    }

    /// The pieces.
    pub fn into_pieces(self) -> Vec<Vec<Row>>
        ensures { rows_in result.items ≡ self }
    {
        self.pieces
    }

    /// All rows in one piece. Where they are one already, none is moved. Asks memory.
    pub fn into_rows(self, alloc: Global) -> Result<Vec<Row>, NoMemory>
        ensures { IfOk result (λ rows. rows.items ≡ self) }
    {
        let mut rows = Vec::new(alloc);
        for piece in self.pieces {
            let mut more = piece;
            if rows.is_empty() {
                rows = more;
            } else if rows.append(&mut more).is_err() {
                return Err(NoMemory);
            }
        }
        Ok(rows)
    }
}
