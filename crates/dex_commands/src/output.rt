//! What a sink takes of a text.

ghost use Rattle.std.specs.Prelude.{◌≡◌};
ghost use Rattle.std.specs.List.{flat_map};
ghost use Rattle.dex_dump.specs.Pieces.{piece_text, zeros_text};
ghost use Rattle.dex_commands.specs.Ending.{output};
ghost use Rattle.dex_commands.specs.Stops.{Writes};

use dex_answers::Status;
use dex_dump::Piece;
use dex_io::{Sink, write_all};

/// Writes the text of a status that stands.
pub fn written<K: Sink>(sink: &mut K, text: &[u8], stands: Status) -> Status
    ensures { Writes
        (output (K.taken sink.old) (K.taken sink.new) (K.faults sink.old) (K.faults sink.new)) stands text.now result }
{
    match write_all(sink, text) {
        Ok(()) => stands,
        Err(_) => Status::WriteFault,
    }
}

/// The text of a piece of zeros. It stands in the program itself: the stack that a process begins with has 128 KB.
pub const ZEROS: [u8; 65_536] = [b'A'; 65_536];

/// Writes the pieces of a text of a status that stands, one after the other.
#[tactic(auto, unfolding(dex_dump::specs::Pieces::zeros_text))]
pub fn written_each<K: Sink>(sink: &mut K, pieces: &[Piece], stands: Status) -> Status
    ensures { Writes
        (output (K.taken sink.old) (K.taken sink.new) (K.faults sink.old) (K.faults sink.new)) stands
        (flat_map piece_text pieces.now) result }
{
    for piece in pieces {
        match write_all(sink, bytes_of(piece, &ZEROS)) {
            Ok(()) => {}
            Err(_) => return Status::WriteFault,
        }
    }
    stands
}

/// The bytes of a piece, where these are those of a piece of zeros.
pub fn bytes_of<'a>(piece: &'a Piece, zeros: &'a [u8]) -> &'a [u8]
    requires { zeros.now ≡ zeros_text }
    ensures { result.now ≡ piece_text piece.now }
{
    match piece {
        Piece::Bytes(bytes) => bytes,
        Piece::Zeros => zeros,
    }
}
