//! The rows of a text, and the fields of a row.

ghost use Rattle.std.specs.Prelude.{◌≡◌, ◌<◌, [], ◌∷◌, IfOk, IfSome, IsSomeAnd, OnErr, false, length, true};
ghost use Rattle.csv.specs.Records.{fields_of};
ghost use Rattle.dex_rows.specs.Records.{field_at, rows_of};
ghost use Rattle.dex_rows.specs.Rows.{IsSource, rows_behind};

use crate::lines::{self, KEPT, Line, next_line, without_mark};
use crate::plain::PlainRows;
use crate::quoted::{self, QuotedRows};
use csv::ByteRecord;
use dex_types::NoMemory;
use memchr::memchr;
use std::alloc::Global;
use std::marker::Model;

/// The fields of a row. A contract sees them as a list. One buffer serves for all rows of a text.
#[derive(Drop)]
pub struct Fields<'a> {
    /// The row where it stands in the text.
    pub(crate) line: Line<'a>,
    /// The row without its quotes, where the text has some.
    pub(crate) quoted: Option<ByteRecord>,
}

impl<'a> Model for Fields<'a> {
    ghost use Rattle.std.specs.Prelude.{List, ℕ};
    ghost use Rattle.dex_rows.specs.Lines.{IsCut};
    ghost use Rattle.dex_rows.specs.Rows.{fields_in};

    ghost Value = { List (List ℕ) };

    ghost view = { λ s. fields_in s.line s.quoted };

    ghost invariant = { λ s. IsCut s.line };
}

impl<'a> Fields<'a> {
    /// The fields of an empty row, to be filled. It takes no memory.
    pub fn new() -> Fields<'a>
        ensures { result ≡ [] ∷ [] }
    {
        let none: &[u8] = &[];
        let line = Line {
            bytes: none,
            fields: [none; KEPT],
            count: 1,
        };
        Fields { line, quoted: None }
    }
}

/// The rows of a text that are still to come, read one after the other. A contract sees it as the list of these rows.
///
/// A row may have any number of fields, and no row is a header. A byte-order mark at the start is no part of the first
/// field, and an empty text has no rows. A text without a quote is cut where it stands; any other is read by `csv`.
#[derive(Drop)]
pub struct Rows<'a> {
    source: Source<'a>,
}

// What is left of a text: bytes without a quote, a text with quotes of which nothing was read, or rows that `csv`
// reads. Its reader takes 16 KB, so it stands in a box, which is made before the first row is read.
#[derive(Drop)]
enum Source<'a> {
    Plain(&'a [u8]),
    Unread(Global, &'a [u8]),
    Quoted(Box<QuotedRows<'a>>),
}

impl<'a> Model for Rows<'a> {
    ghost use Rattle.std.specs.Prelude.{List, ℕ};
    ghost use Rattle.dex_rows.specs.Rows.{IsSource, rows_behind};

    ghost Value = { List (List (List ℕ)) };

    ghost view = { λ s. rows_behind s.source };

    ghost invariant = { λ s. IsSource s.source };
}

impl<'a> Rows<'a> {
    /// All rows of a text. It takes no memory.
    pub fn new(alloc: Global, text: &'a [u8]) -> Rows<'a>
        ensures { result ≡ rows_of text.now }
    {
        let source = match memchr(b'"', text) {
            None => Source::Plain(without_mark(text)),
            Some(_) => Source::Unread(alloc, text),
        };
        Rows { source }
    }

    /// The rows of a text without a quote, to be read.
    pub fn of_plain(plain: &PlainRows<'a>) -> Rows<'a>
        ensures { result ≡ plain.now }
    {
        Rows {
            source: Source::Plain(plain.bytes),
        }
    }

    /// The rows that are left, as they stand, where the text has no quote.
    pub fn plain(&self) -> Option<PlainRows<'a>>
        ensures { IfSome result (λ plain. plain ≡ self.now) }
    {
        match &self.source {
            Source::Plain(rest) => Some(PlainRows { bytes: *rest }),
            Source::Unread(_, _) => None,
            Source::Quoted(_) => None,
        }
    }

    /// Takes the next row, and answers whether there was one. After a lack of memory there are no more rows.
    pub fn next_row(&mut self, row: &mut Fields<'a>) -> Result<bool, NoMemory>
        ensures next { IfOk result (λ found. found ≡ true → self.old ≡ row.new ∷ self.new) }
        ensures end { IfOk result (λ found. found ≡ false → self.old ≡ []) }
        ensures stopped { OnErr result (self.new ≡ []) }
    {
        match &mut self.source {
            Source::Plain(rest) => {
                row.quoted = None;
                Ok(next_line(rest, &mut row.line))
            }
            Source::Unread(alloc, text) => {
                let (alloc, text) = (*alloc, *text);
                first_row(alloc, text, &mut self.source, &mut row.quoted)
            }
            Source::Quoted(rows) => rows.next_row(&mut row.quoted),
        }
    }
}

// Takes the first row of a text, read by `csv`, and puts what is left into the source. It is not inlined, so that a
// reader is on the stack only here, and so that a row behind the first costs nothing for it.
#[inline(never)]
fn first_row<'a>(
    alloc: Global,
    text: &'a [u8],
    source: &mut Source<'a>,
    row: &mut Option<ByteRecord>,
) -> Result<bool, NoMemory>
    ensures next { IfOk result (λ found. found ≡ true
        → IsSomeAnd row.new (λ kept. rows_of text.now ≡ fields_of kept ∷ rows_behind source.new)) }
    ensures end { IfOk result (λ found. found ≡ false → rows_of text.now ≡ []) }
    ensures stopped { OnErr result (rows_behind source.new ≡ []) }
    ensures source { IsSource source.new }
{
    match Box::new(alloc, QuotedRows::new(alloc, text)) {
        Ok(mut rows) => {
            let found = rows.next_row(row);
            *source = Source::Quoted(rows);
            found
        }
        Err(_) => {
            let none: &[u8] = &[];
            *source = Source::Plain(none);
            Err(NoMemory)
        }
    }
}

/// How many fields a row has.
pub fn field_count(row: &Fields<'_>) -> usize
    ensures { result ≡ length row.now }
{
    match &row.quoted {
        None => row.line.count,
        Some(record) => record.len(),
    }
}

/// The bytes of the field at a place of a row, counted from 0, if it is one of the first twelve; no bytes after the
/// last.
pub fn field_at<'r>(row: &'r Fields<'_>, place: usize) -> &'r [u8]
    requires { place < 12 }
    ensures { result.now ≡ field_at row.now place }
{
    match &row.quoted {
        None => lines::field(&row.line, place),
        Some(record) => quoted::field(record, place),
    }
}
