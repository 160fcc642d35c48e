//! A text and its status.

ghost use Rattle.std.specs.Prelude.{IfOk};
ghost use Rattle.dex_answers.specs.Telling.{IsText};

use crate::status::Status;
use dex_dump::Piece;
use dex_types::NoMemory;
use std::alloc::Global;

/// A text in pieces that follow each other, and the status under which it is written.
#[derive(Debug, Drop)]
pub struct StatusText {
    pub status: Status,
    pub pieces: Vec<Piece>,
}

impl StatusText {
    /// A text of one piece.
    pub fn of(alloc: Global, status: Status, text: Vec<u8>) -> Result<StatusText, NoMemory>
        ensures { IfOk result (λ told. IsText told status text.items) }
    {
        let mut pieces = Vec::new(alloc);
        pieces.push(Piece::Bytes(text))?;
        Ok(StatusText { status, pieces })
    }
}
