//! A source over memory that never fails.

ghost use Rattle.std.specs.Prelude.{◌≡◌, ◌≤◌, ◌++◌, List, ℕ, length, take, drop, min, vec_len, Some, Ok, IfOk};

use crate::{Failed, Source};
use std::marker::Model;

/// Gives its bytes and no fault. A contract sees it as the list of the bytes that are still to come.
#[derive(Drop)]
pub struct SureSource {
    bytes: Vec<u8>,
    next: usize,
}

impl Model for SureSource {
    ghost Value = { List ℕ };

    ghost view = { λ s. drop s.next s.bytes.items };

    ghost invariant = { λ s. s.next ≤ vec_len s.bytes };
}

impl SureSource {
    /// A source that gives these bytes.
    pub fn new(bytes: Vec<u8>) -> SureSource
        ensures { result ≡ bytes.items }
    {
        SureSource { bytes, next: 0 }
    }
}

impl Source for SureSource {
    ghost left = { λ s. Some s };

    ghost faults = { λ s. 0 };

    /// Fills the buffer as far as there are bytes.
    fn read(&mut self, buf: &mut [u8]) -> Result<usize, Failed>
        ensures ok { result ≡ Ok (min (length buf.old) (length self.old)) }
        ensures left { self.new ≡ drop (length buf.old) self.old }
        ensures buffer { buf.new ≡ take (length buf.old) self.old ++ drop (length self.old) buf.old }
    {
        let count = buf.len().min(self.bytes.len() - self.next);
        let end = self.next + count;
        buf[..count].copy_from_slice(&self.bytes[self.next..end]);
        self.next = end;
        Ok(count)
    }
}
