//! A script, from its bytes, whose rows are read by several threads.

ghost use denote.Param.Send.{IsSync};
ghost use Rattle.std.specs.Prelude.{◌≡◌, ◌≤◌, All, IfOk, OnOk, true};
ghost use Rattle.dex_types.specs.declared.limits.TheConstants.{STANDARD as standard};
ghost use Rattle.dex_script_types.specs.Facts.{HasNoSwap};
ghost use Rattle.dex_script.specs.Pieces.{IsUnderway, number_after};
ghost use Rattle.dex_script.specs.Scripts.{draft_after};
ghost use Rattle.dex_script.specs.Telling.{TellsDraft, TellsScript};
ghost use Rattle.dex_script_pieces.specs.Pieces.{HasRead, IsBeside, IsNext, rows_of};

use crate::guesses::{PieceStart, place_behind};
use crate::making::{BesidePieces, SideBySide};
use crate::piece::{Piece, read_behind};
use dex_rows::plain::PlainRows;
use dex_rows::records::Rows;
use dex_script::{ReadRows, Reader, Script, ScriptError, read_rows, read_script_by};
use dex_types::STANDARD;
use std::alloc::{AllocError, Global};
use std::marker::Sync;
use std::thread::Threads;

/// No piece but the last is shorter than this many bytes.
const SHORTEST: usize = 1_048_576;

/// There are no more pieces than these.
const MOST: usize = 16;

/// The script that a text is, as `read_script` of `dex_script`. Where the text has no quote, the rows behind the first
/// instruction row are read in pieces, twice as many as these threads and 16 at most, while the accounts of markets are
/// made.
pub fn read_script<R: Threads + Sync>(
    rt: &R,
    alloc: Global,
    bytes: &[u8],
    batch: bool,
    threads: usize,
) -> Result<Script, ScriptError>
    ensures told { TellsScript standard result batch bytes.now }
    ensures apart { IfOk result (λ script. batch ≡ true → HasNoSwap script.rows) }
{
    read_script_by(alloc, bytes, batch, &STANDARD, &InPieces { rt, threads })
}

// Rows are read in pieces, at most twice as many as these threads, while markets are made, on threads of this runtime.
#[derive(Drop)]
struct InPieces<'a, R> {
    rt: &'a R,
    threads: usize,
}

impl<'a, R: Threads + Sync> ReadRows for InPieces<'a, R> {
    ghost ready = { λ how. IsSync R.row };

    fn read_rows(
        &self,
        alloc: Global,
        reader: Reader,
        number: u32,
        rows: &mut Rows<'_>,
    ) -> Result<Reader, ScriptError> {
        if let Some(plain) = rows.plain() {
            let count = count_of(self.threads, plain.size());
            if 2 <= count {
                return read_in_pieces(self.rt, alloc, reader, number, plain, count);
            }
        }
        let mut making = SideBySide { rt: self.rt };
        let reader = reader.with_markets_by(alloc, &mut making)?;
        let mut number = number;
        read_rows(alloc, reader, &mut number, rows, &mut Vec::new(alloc))
    }
}

// In how many pieces rows of this many bytes are read: two for each thread, if there are several.
fn count_of(threads: usize, bytes: usize) -> usize {
    if threads < 2 {
        return 1;
    }
    threads.saturating_mul(2).min(MOST).min(bytes / SHORTEST)
}

// What is read after rows, the first of which has this number, in this many pieces: they are read while the markets are
// made.
fn read_in_pieces<R: Threads + Sync>(
    rt: &R,
    alloc: Global,
    reader: Reader,
    number: u32,
    rows: PlainRows<'_>,
    count: usize,
) -> Result<Reader, ScriptError>
    requires underway { IsUnderway reader }
    requires several { 2 ≤ count }
    ensures { TellsDraft result (draft_after reader number rows.entry) }
{
    let first = PieceStart {
        number,
        clock: reader.clock(),
    };
    let Ok(pieces) = pieces_beside(alloc, &reader, first, rows, count) else {
        return Err(ScriptError::NoMemory);
    };
    let mut making = BesidePieces { rt, pieces };
    let reader = reader.with_markets_by(alloc, &mut making)?;
    behind_pieces(alloc, reader, number, making.pieces)
}

// So many pieces of rows that begin here, of about the same size: each with a reader beside this one.
fn pieces_beside<'a>(
    alloc: Global,
    reader: &Reader,
    begin: PieceStart,
    rows: PlainRows<'a>,
    count: usize,
) -> Result<Vec<Piece<'a>>, AllocError>
    requires { 2 ≤ count }
    ensures rows { IfOk result (λ pieces. rows_of pieces.items ≡ rows.entry) }
    ensures beside { IfOk result (λ pieces. All (IsBeside reader.now) pieces.items) }
{
    let size = rows.size() / count;
    let mut at = begin;
    let mut left = rows;
    let mut pieces = Vec::with_capacity(alloc, count)?;
    'pieces: for _ in 1..count {
        let mut front = left;
        left = front.cut(size);
        let next = place_behind(alloc, &front, at);
        pieces.push(piece_beside(alloc, reader, at, front)?)?;
        at = next;
    }
    pieces.push(piece_beside(alloc, reader, at, left)?)?;
    Ok(pieces)
}

// A piece that begins here, with a reader beside this one.
fn piece_beside<'a>(
    alloc: Global,
    reader: &Reader,
    at: PieceStart,
    rows: PlainRows<'a>,
) -> Result<Piece<'a>, AllocError>
    ensures rows { IfOk result (λ piece. piece.rows ≡ rows.entry) }
    ensures beside { IfOk result (λ piece. IsBeside reader.now piece) }
{
    Ok(Piece {
        alloc,
        rows,
        number: at.number,
        clock: at.clock,
        reader: Ok(reader.beside(alloc, at.clock)?),
        after: at.number,
    })
}

// What is read after pieces that were read beside this reader, where the first row of theirs has this number.
fn behind_pieces(
    alloc: Global,
    reader: Reader,
    number: u32,
    pieces: Vec<Piece<'_>>,
) -> Result<Reader, ScriptError>
    requires underway { IsUnderway reader }
    requires read { All (HasRead reader) pieces.items }
    ensures { TellsDraft result (draft_after reader number (rows_of pieces.entry.items)) }
{
    let mut reader = reader;
    let mut number = number;
    for piece in pieces {
        reader = behind_piece(alloc, reader, &mut number, piece)?;
    }
    Ok(reader)
}

// What is read after one more piece. One that is not the next as it is read again.
fn behind_piece(
    alloc: Global,
    reader: Reader,
    number: &mut u32,
    piece: Piece<'_>,
) -> Result<Reader, ScriptError>
    requires underway { IsUnderway reader }
    requires read { HasRead reader piece }
    ensures told { TellsDraft result (draft_after reader number.old piece.entry.rows) }
    ensures number { OnOk result (number.new ≡ number_after number.old piece.entry.rows) }
{
    if is_next(&reader, *number, &piece) {
        *number = piece.after;
        let read = piece.into_reader()?;
        match reader.join(read) {
            Ok(both) => Ok(both),
            Err(_) => Err(ScriptError::NoMemory),
        }
    } else {
        read_behind(alloc, Ok(reader), number, &piece.rows)
    }
}

// Whether a piece begins where it was guessed, has no fault and finds room.
fn is_next(reader: &Reader, number: u32, piece: &Piece<'_>) -> bool
    ensures { result ≡ true → IsNext reader.now number piece.now }
{
    match &piece.reader {
        Ok(read) => {
            piece.number == number && piece.clock == reader.clock() && reader.has_room(read)
        }
        Err(_) => false,
    }
}
