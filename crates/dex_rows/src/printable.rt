ghost use Rattle.std.specs.Prelude.{◌≡◌, ◌↔◌, All, IsTrue};
ghost use Rattle.std.specs.List.{list_all};
ghost use Rattle.csv.specs.Records.{fields_of};
ghost use Rattle.dex_rows.specs.Printable.{IsPrintable, is_printable, is_printable_byte, row_is_printable};

use crate::quoted::field;
use crate::records::Fields;
use csv::ByteRecord;

/// Whether each byte of a field is from 32 to 126.
#[tactic(auto, unfolding(crate::specs::Printable::is_printable))]
pub fn is_printable(text: &[u8]) -> bool
    ensures value { result ≡ is_printable text.now }
    ensures every { IsTrue result ↔ IsPrintable text.now }
{
    has_printable_bytes(text)
}

// Like `is_printable`. It looks at each byte, also after one that is not printable: so many can be looked at together.
fn has_printable_bytes(text: &[u8]) -> bool
    ensures { result ≡ list_all is_printable_byte text.now }
{
    let mut all = true;
    'bytes: for place in 0..text.len() {
        all &= is_printable_byte(text[place]);
    }
    all
}

// Whether a byte is from 32 to 126.
fn is_printable_byte(byte: u8) -> bool
    ensures { result ≡ is_printable_byte byte }
{
    32 <= byte && byte <= 126
}

/// Whether each byte of each field of a row is from 32 to 126.
pub fn row_is_printable(row: &Fields<'_>) -> bool
    ensures value { result ≡ row_is_printable row.now }
    ensures every { IsTrue result ↔ All IsPrintable row.now }
{
    match &row.quoted {
        None => is_printable(row.line.bytes),
        Some(record) => record_is_printable(record),
    }
}

// Whether each byte of each field of a record is from 32 to 126.
fn record_is_printable(row: &ByteRecord) -> bool
    ensures { result ≡ row_is_printable (fields_of row.now) }
{
    is_printable(row.as_slice()) || fields_are_printable(row)
}

// Like `record_is_printable`, field by field: the record may have bytes that stand in no field.
fn fields_are_printable(row: &ByteRecord) -> bool
    ensures { result ≡ row_is_printable (fields_of row.now) }
{
    'fields: for place in 0..row.len() {
        if !is_printable(field(row, place)) {
            return false;
        }
    }
    true
}
