//! Rows of a text without quotes, cut where they stand.

ghost use Rattle.std.specs.Prelude.{◌≡◌, ◌<◌, ◌≤◌, [], ◌∷◌, ◌++◌, drop, false, length, take, true};
ghost use Rattle.csv.specs.Reading.{strip_bom};
ghost use Rattle.dex_rows.specs.Lines.{AreCut, HasNoQuote, IsCut, IsFront, IsPassed, KeepsField, behind_ends, cells_of, ends_row, rows_in, texts};
ghost use Rattle.dex_rows.specs.Records.{field_at};

use memchr::memchr3;

/// How many fields of a row are kept: more than any row of a script or a dump may have.
pub(crate) const KEPT: usize = 12;

/// A row as it stands in a text without quotes, its first twelve fields, and how many there are.
#[derive(Drop)]
pub(crate) struct Line<'a> {
    pub(crate) bytes: &'a [u8],
    pub(crate) fields: [&'a [u8]; KEPT],
    pub(crate) count: usize,
}

/// How long a row is, and how many fields it has.
struct Cut {
    length: usize,
    count: usize,
}

/// A text without the byte-order mark at its start.
#[tactic(auto, unfolding(csv::specs::Reading::strip_bom))]
pub(crate) fn without_mark(text: &[u8]) -> &[u8]
    ensures { result.now ≡ strip_bom text.now }
{
    match text {
        [0xef, 0xbb, 0xbf, rest @ ..] => rest,
        _ => text,
    }
}

/// Puts the next row of a text without quotes into a line, if there is one: what stands up to the next line end.
pub(crate) fn next_line<'a>(rest: &mut &'a [u8], line: &mut Line<'a>) -> bool
    requires quotes { HasNoQuote rest.old.now }
    requires cut { IsCut line.old }
    ensures next { result ≡ true → rows_in rest.old.now ≡ cells_of line.new.bytes.now ∷ rows_in rest.new.now }
    ensures end { result ≡ false → rows_in rest.old.now ≡ [] }
    ensures cut { IsCut line.new }
    ensures left { HasNoQuote rest.new.now }
{
    let text = behind_ends(*rest);
    if text.is_empty() {
        return false;
    }
    let Cut { length, count } = cut_at(text, &mut line.fields);
    line.bytes = &text[..length];
    line.count = count;
    *rest = &text[length..];
    true
}

// What stands after the line ends at the front.
fn behind_ends(text: &[u8]) -> &[u8]
    ensures { result.now ≡ behind_ends text.now }
{
    'bytes: for at in 0..text.len() {
        if !ends_row(text[at]) {
            return &text[at..];
        }
    }
    &[]
}

// Cuts the row at the front of a text, up to a line end or the text's: one pass over its bytes. It is not inlined, so
// that the pass has few values in hand. Fields that stood there before stay behind those of the row.
#[inline(never)]
fn cut_at<'a>(text: &'a [u8], fields: &mut [&'a [u8]; KEPT]) -> Cut
    requires { length fields.old ≡ 12 }
    ensures size { length fields.new ≡ 12 }
    ensures cut { AreCut (take result.length text.now) result.count fields.new }
    ensures front { IsFront text.now result.length }
{
    let mut count = 0;
    let mut start = 0;
    let mut at = 0;
    'bytes: while at < text.len() {
        let byte = text[at];
        if b',' < byte {
            at += 1;
        } else if byte == b',' {
            keep(fields, count, &text[start..at]);
            count += 1;
            start = at + 1;
            at = next_place(text, start, count);
        } else if ends_row(byte) {
            keep(fields, count, &text[start..at]);
            return Cut {
                length: at,
                count: count + 1,
            };
        } else {
            at += 1;
        }
    }
    keep(fields, count, &text[start..]);
    Cut {
        length: text.len(),
        count: count + 1,
    }
}

// Where to look on after a comma. The words of a `do` row are its tenth field, which is a long one: many bytes are
// looked at together there.
fn next_place(text: &[u8], start: usize, count: usize) -> usize
    requires { start ≤ length text.now }
    ensures { IsPassed text.now start result }
{
    if count != 9 {
        return start;
    }
    match memchr3(b',', b'\r', b'\n', text.split_at(start).1) {
        Some(place) => start + place,
        None => text.len(),
    }
}

// Keeps a field, if it is one of the first.
fn keep<'a>(fields: &mut [&'a [u8]; KEPT], count: usize, field: &'a [u8])
    requires { length fields.old ≡ 12 }
    ensures size { length fields.new ≡ 12 }
    ensures kept { KeepsField fields.old count field.now fields.new }
{
    if count < KEPT {
        fields[count] = field;
    }
}

/// The bytes of the field at a place of a line, counted from 0, if it is one of the first twelve; no bytes after the
/// last.
pub(crate) fn field<'r>(line: &'r Line<'_>, place: usize) -> &'r [u8]
    requires few { place < 12 }
    requires cut { IsCut line.now }
    ensures { result.now ≡ field_at (cells_of line.now.bytes.now) place }
{
    if line.count <= place {
        return &[];
    }
    line.fields[place]
}

// Whether a byte ends a row.
pub(crate) fn ends_row(byte: u8) -> bool
    ensures { result ≡ ends_row byte }
{
    byte == b'\r' || byte == b'\n'
}
