//! A text that is written into memory that the caller has.

ghost use Rattle.std.specs.Prelude.{◌≡◌, ◌+◌, ◌≤◌, ◌++◌, IfSome, drop, length, take};
ghost use Rattle.std.specs.List.{flat_map};
ghost use Rattle.dex_dump.specs.Pieces.{piece_text, zeros_text};
ghost use Rattle.dex_call.specs.Calls.{IsWritten};

use dex_commands::{ZEROS, bytes_of};
use dex_dump::Piece;

/// How many bytes the pieces of a text have; none where a number cannot tell it.
#[tactic(auto, unfolding(dex_dump::specs::Pieces::zeros_text))]
pub(crate) fn size_of(pieces: &[Piece]) -> Option<usize>
    ensures { IfSome result (λ size. size ≡ length (flat_map piece_text pieces.now)) }
{
    let mut size: usize = 0;
    'pieces: for piece in pieces {
        size = size.checked_add(bytes_of(piece, &ZEROS).len())?;
    }
    Some(size)
}

/// Writes the pieces of a text of this length to the front of the room that is there, if it fits whole; else the room
/// stays as it is.
pub(crate) fn put(pieces: &[Piece], size: usize, room: &mut [u8])
    requires { size ≡ length (flat_map piece_text pieces.now) }
    ensures { IsWritten (flat_map piece_text pieces.now) room.old room.new }
{
    if size <= room.len() {
        put_each(pieces, room);
    }
}

/// Writes pieces, one behind the other, to the front of the room.
#[tactic(auto, unfolding(dex_dump::specs::Pieces::zeros_text))]
fn put_each(pieces: &[Piece], room: &mut [u8])
    requires { length (flat_map piece_text pieces.now) ≤ length room.old }
    ensures { room.new ≡ flat_map piece_text pieces.now ++ drop (length (flat_map piece_text pieces.now)) room.old }
{
    let mut place: usize = 0;
    'pieces: for piece in pieces {
        place = put_at(room, place, bytes_of(piece, &ZEROS));
    }
}

/// Writes bytes to the room behind a place, and gives the place behind them.
fn put_at(room: &mut [u8], place: usize, bytes: &[u8]) -> usize
    requires { place + length bytes.now ≤ length room.old }
    ensures end { result ≡ place + length bytes.now }
    ensures written { room.new ≡ take place room.old ++ (bytes.now ++ drop (place + length bytes.now) room.old) }
{
    let end = place + bytes.len();
    room[place..end].copy_from_slice(bytes);
    end
}
