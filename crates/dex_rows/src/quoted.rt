//! Rows of a text with quotes, read by `csv`.

ghost use Rattle.std.specs.Prelude.{◌≡◌, [], ◌∷◌, IfOk, IsSomeAnd, IsTrue, OnErr, false, true};
ghost use Rattle.csv.specs.Records.{fields_of};
ghost use Rattle.dex_rows.specs.Records.{field_at, rows_of};
ghost use Rattle.dex_rows.specs.RowReader.{GivesRows, rows_left};

use csv::{ByteRecord, Reader, ReaderBuilder};
use dex_types::NoMemory;
use std::alloc::Global;
use std::marker::Model;

/// The rows of a text that are still to come, as a list.
#[derive(Drop)]
pub(crate) struct QuotedRows<'a> {
    reader: Reader<&'a [u8]>,
    is_over: bool,
    alloc: Global,
}

impl<'a> Model for QuotedRows<'a> {
    ghost use Rattle.std.specs.Prelude.{◌≡◌, List, ℕ, false};
    ghost use Rattle.dex_rows.specs.RowReader.{rows_unless, GivesRows};

    ghost Value = { List (List (List ℕ)) };

    ghost view = { λ s. rows_unless s.is_over s.reader };

    ghost invariant = { λ s. s.is_over ≡ false → GivesRows s.reader };
}

impl<'a> QuotedRows<'a> {
    /// All rows of a text. It takes no memory.
    pub(crate) fn new(alloc: Global, text: &'a [u8]) -> QuotedRows<'a>
        ensures { result ≡ rows_of text.now }
    {
        let reader = ReaderBuilder::new()
            .has_headers(false)
            .flexible(true)
            .from_reader(alloc, text);
        QuotedRows {
            reader,
            is_over: false,
            alloc,
        }
    }

    /// Takes the next row into a record, the one that is there or a new one, and answers whether there was one. After a
    /// lack of memory there are no more rows.
    pub(crate) fn next_row(&mut self, row: &mut Option<ByteRecord>) -> Result<bool, NoMemory>
        ensures next { IfOk result (λ found. found ≡ true
            → IsSomeAnd row.new (λ kept. self.old ≡ fields_of kept ∷ self.new)) }
        ensures end { IfOk result (λ found. found ≡ false → self.old ≡ []) }
        ensures stopped { OnErr result (self.new ≡ []) }
    {
        if self.is_over {
            return Ok(false);
        }
        self.is_over = true;
        let mut record = match row.take() {
            Some(record) => record,
            None => ByteRecord::new(self.alloc),
        };
        let found = read_row(&mut self.reader, &mut record)?;
        self.is_over = !found;
        *row = Some(record);
        Ok(found)
    }
}

// Reads the next row, and answers whether there was one.
fn read_row(reader: &mut Reader<&[u8]>, row: &mut ByteRecord) -> Result<bool, NoMemory>
    requires { GivesRows reader.old }
    ensures goes_on { IfOk result (λ found. IsTrue found → GivesRows reader.new) }
    ensures row { IfOk result (λ found. IsTrue found
        → rows_left reader.old ≡ fields_of row.new ∷ rows_left reader.new) }
    ensures end { IfOk result (λ found. found ≡ false → rows_left reader.old ≡ []) }
{
    let Ok(found) = reader.read_byte_record(row) else {
        return Err(NoMemory);
    };
    Ok(found)
}

/// The bytes of the field at a place of a record, counted from 0; no bytes after the last.
pub(crate) fn field(read: &ByteRecord, place: usize) -> &[u8]
    ensures { result.now ≡ field_at (fields_of read.now) place }
{
    if read.len() <= place {
        return &[];
    }
    read.get(place).unwrap()
}
