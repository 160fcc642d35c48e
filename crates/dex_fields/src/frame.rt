//! The text at the front and at the end of every account of the program.

ghost use Rattle.std.specs.Prelude.{◌≡◌, ◌-◌, ◌≤◌, ◌↔◌, length, IsNone};
ghost use Rattle.dex_fields.specs.Bytes.{IsWithin, bytes_in};
ghost use Rattle.dex_fields.specs.Frame.{IsFramed, difference_from, frame_difference};

use crate::Field;
use crate::field::piece;

/// The text with which every account begins: `serum`.
pub const FRONT_TEXT: [u8; 5] = [b's', b'e', b'r', b'u', b'm'];

/// The text with which every account ends: `padding`.
pub const END_TEXT: [u8; 7] = [b'p', b'a', b'd', b'd', b'i', b'n', b'g'];

/// The field of the text with which every account begins.
pub const FRONT: Field = Field { at: 0, len: 5 };

/// A byte that differs from the text that must stand there.
#[derive(Clone, Copy, Debug, PartialEq, Eq)]
pub struct Difference {
    /// The place of the byte in the account.
    pub place: usize,
    pub found: u8,
    pub wanted: u8,
}

fn first_difference(bytes: &[u8], field: Field, text: &[u8]) -> Option<Difference>
    requires within { IsWithin field bytes.now }
    requires whole { length text.now ≡ field.len }
    ensures { result ≡ difference_from field.at (bytes_in bytes.now field) text.now }
{
    let piece = piece(bytes, field);
    for (i, wanted) in text.iter().enumerate() {
        let found = piece[i];
        if found != *wanted {
            return Some(Difference {
                place: field.at + i,
                found,
                wanted: *wanted,
            });
        }
    }
    None
}

/// The first byte at which an account differs from `serum` at its front or from `padding` at its end.
pub fn frame_difference(bytes: &[u8]) -> Option<Difference>
    requires { 12 ≤ length bytes.now }
    ensures first { result ≡ frame_difference bytes.now }
    ensures none { IsNone result ↔ IsFramed bytes.now }
{
    let end = Field {
        at: bytes.len() - END_TEXT.len(),
        len: END_TEXT.len(),
    };
    first_difference(bytes, FRONT, &FRONT_TEXT).or(first_difference(bytes, end, &END_TEXT))
}
