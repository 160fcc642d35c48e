//! A text in pieces, some of which stand where bytes stood before, and some of which take no room.

ghost use Rattle.std.specs.Prelude.{◌≡◌, ◌++◌, [], IfOk, OnOk};
ghost use Rattle.std.specs.List.{flat_map};
ghost use Rattle.dex_dump.specs.Pieces.{piece_text, text_in, zeros_text};

use std::alloc::{AllocError, Global};
use std::mem;

/// How many zeros a piece of zeros is in base64.
pub(crate) const ZEROS: usize = 49_152;

/// A piece of a text.
#[derive(Debug, Drop)]
pub enum Piece {
    /// These bytes.
    Bytes(Vec<u8>),
    /// The letter `A` 65,536 times: 49,152 zeros in base64. Of it nothing is in memory.
    Zeros,
}

/// A text in pieces that follow each other. What is written next goes after the last.
#[derive(Drop)]
pub struct Pieces {
    pub(crate) alloc: Global,
    pub done: Vec<Piece>,
    pub last: Vec<u8>,
}

impl Pieces {
    /// An empty text, with room for this many bytes.
    pub fn with_capacity(alloc: Global, room: usize) -> Result<Pieces, AllocError>
        ensures { IfOk result (λ text. text_in text ≡ []) }
    {
        let last = Vec::with_capacity(alloc, room)?;
        Ok(Pieces {
            alloc,
            done: Vec::new(alloc),
            last,
        })
    }

    /// Ends a piece: what is written next goes where these bytes stand, which are given up.
    pub(crate) fn go_on_in(&mut self, bytes: Vec<u8>) -> Result<(), AllocError>
        ensures text { OnOk result (text_in self.new ≡ text_in self.old) }
        ensures next { OnOk result (self.new.last.items ≡ []) }
    {
        let mut next = bytes;
        next.clear();
        let last = mem::replace(&mut self.last, next);
        self.done.push(Piece::Bytes(last))?;
        Ok(())
    }

    /// A piece of zeros after the last.
    pub(crate) fn push_zeros(&mut self) -> Result<(), AllocError>
        ensures { OnOk result (text_in self.new ≡ text_in self.old ++ zeros_text) }
    {
        self.end_last()?;
        self.done.push(Piece::Zeros)?;
        Ok(())
    }

    fn end_last(&mut self) -> Result<(), AllocError>
        ensures text { OnOk result (text_in self.new ≡ text_in self.old) }
        ensures next { OnOk result (self.new.last.items ≡ []) }
    {
        if self.last.is_empty() {
            return Ok(());
        }
        self.go_on_in(Vec::new(self.alloc))
    }

    /// All pieces.
    pub fn into_pieces(self) -> Result<Vec<Piece>, AllocError>
        ensures { IfOk result (λ pieces. flat_map piece_text pieces.items ≡ text_in self) }
    {
        let mut pieces = self.done;
        pieces.push(Piece::Bytes(self.last))?;
        Ok(pieces)
    }
}
