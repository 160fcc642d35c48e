//! A piece of the rows of a script, which one thread reads.

ghost use Rattle.std.specs.Prelude.{◌≡◌, IfOk, OnOk, ⊤};
ghost use Rattle.dex_script.specs.Pieces.{number_after};
ghost use Rattle.dex_script.specs.Scripts.{draft_after};
ghost use Rattle.dex_script.specs.Telling.{TellsDraft};
ghost use Rattle.dex_script_pieces.specs.Pieces.{ReadsPiece};

use dex_lanes::Job;
use dex_rows::plain::PlainRows;
use dex_rows::records::Rows;
use dex_script::{Reader, ScriptError, read_rows};
use std::alloc::{AllocError, Global};

/// How many bytes of room are taken at once: less than a block that the allocator asks of the system by itself.
const BLOCK: usize = 120_000;

/// How many times the bytes of rows their buffers take at most, about.
const TIMES: usize = 3;

/// Some rows, where a piece of them begins: the number of the first, and the clock before it.
#[derive(Drop)]
pub(crate) struct Piece<'a> {
    pub(crate) alloc: Global,
    pub(crate) rows: PlainRows<'a>,
    pub(crate) number: u32,
    pub(crate) clock: i64,
    /// Before it is read, a reader that has read none of its rows; then, what is read after them, or their first fault.
    pub(crate) reader: Result<Reader, ScriptError>,
    /// The number of the row after it, when it is read.
    pub(crate) after: u32,
}

impl<'a> Job for Piece<'a> {
    ghost ready = { λ piece. ⊤ };

    ghost ran = { ReadsPiece };

    fn run(&mut self) {
        make_room(self.alloc, self.rows.size());
        self.after = self.number;
        let reader = std::mem::replace(&mut self.reader, Err(ScriptError::NoMemory));
        self.reader = read_behind(self.alloc, reader, &mut self.after, &self.rows);
    }
}

impl<'a> Piece<'a> {
    /// What was read.
    pub(crate) fn into_reader(self) -> Result<Reader, ScriptError>
        ensures { result ≡ self.entry.reader }
    {
        self.reader
    }
}

/// What is read after rows, the first of which has this number, if none before them is faulty. Raises the number to
/// that of the row after them.
pub(crate) fn read_behind(
    alloc: Global,
    reader: Result<Reader, ScriptError>,
    number: &mut u32,
    rows: &PlainRows<'_>,
) -> Result<Reader, ScriptError>
    ensures told { IfOk reader (λ before. TellsDraft result (draft_after before number.old rows.now)) }
    ensures number { OnOk result (number.new ≡ number_after number.old rows.now) }
{
    let mut rows = Rows::of_plain(rows);
    read_rows(alloc, reader?, number, &mut rows, &mut Vec::new(alloc))
}

/// Takes the room that the buffers of rows of this many bytes want, and gives it back. The heap of a thread grows by a
/// page at a time otherwise, and each time all threads wait for the map of memory. Where memory is wanting less is
/// taken.
fn make_room(alloc: Global, size: usize) {
    let mut blocks: Vec<Vec<u8>> = Vec::new(alloc);
    for _ in 0..(size / BLOCK).saturating_mul(TIMES) {
        let block: Result<Vec<u8>, AllocError> = Vec::with_capacity(alloc, BLOCK);
        let Ok(block) = block else {
            return;
        };
        if blocks.push(block).is_err() {
            return;
        }
    }
}
