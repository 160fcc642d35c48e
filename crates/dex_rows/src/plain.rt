//! Texts without quotes, cut at line ends.

ghost use Rattle.std.specs.Prelude.{◌≡◌, ◌++◌, ◌≤◌, drop, length};
ghost use Rattle.dex_rows.specs.Lines.{HasNoQuote, IsEnd};

use crate::lines::ends_row;
use memchr::{memchr_iter, memmem};
use std::marker::Model;

/// Rows of a text without a quote that are still to come, as they stand in it. A contract sees them as a list.
#[derive(Drop)]
pub struct PlainRows<'a> {
    pub(crate) bytes: &'a [u8],
}

impl<'a> Model for PlainRows<'a> {
    ghost use Rattle.std.specs.Prelude.{List, ℕ};
    ghost use Rattle.dex_rows.specs.Lines.{HasNoQuote, rows_in};

    ghost Value = { List (List (List ℕ)) };

    ghost view = { λ s. rows_in s.bytes.now };

    ghost invariant = { λ s. HasNoQuote s.bytes.now };
}

impl<'a> PlainRows<'a> {
    /// How many bytes they take.
    pub fn size(&self) -> usize {
        self.bytes.len()
    }

    /// Cuts them at the first line end after so many bytes, and hands out those after it.
    pub fn cut(&mut self, size: usize) -> PlainRows<'a>
        ensures { self.old ≡ self.new ++ result }
    {
        let at = line_end(self.bytes, size);
        let behind = PlainRows {
            bytes: &self.bytes[at..],
        };
        self.bytes = &self.bytes[..at];
        behind
    }

    /// How many line feeds stand among them. Each is looked for, since the library's own count goes from byte to byte.
    pub fn line_feeds(&self) -> usize {
        let mut count: usize = 0;
        for _ in memchr_iter(b'\n', self.bytes) {
            count = count.wrapping_add(1);
        }
        count
    }

    /// What stands from the last place on at which these bytes do. No clause says which place that is.
    pub fn from_last(&self, bytes: &[u8]) -> Option<PlainRows<'a>> {
        match memmem::rfind(self.bytes, bytes) {
            None => None,
            Some(at) => Some(PlainRows {
                bytes: &self.bytes[at..],
            }),
        }
    }
}

// Where the first line end after so many bytes stands, or where the text ends.
fn line_end(text: &[u8], size: usize) -> usize
    ensures within { result ≤ length text.now }
    ensures end { IsEnd (drop result text.now) }
{
    'bytes: for at in size.min(text.len())..text.len() {
        if ends_row(text[at]) {
            return at;
        }
    }
    text.len()
}
