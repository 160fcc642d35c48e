//! An account of the program with nothing in it.

ghost use Rattle.std.specs.Prelude.{◌≡◌, ◌+◌, ◌≤◌, length, replicate};
ghost use Rattle.dex_fields.specs.Bytes.{bytes_in, end_of, number_in};
ghost use Rattle.dex_fields.specs.Empty.{empty_account};
ghost use Rattle.dex_fields.specs.Frame.{IsFramed};

use crate::Field;
use crate::frame::{END_TEXT, FRONT, FRONT_TEXT};
use crate::put::{put_piece, put_u64};

/// The field of the flags, which every account has after its first text.
pub const FLAGS: Field = Field { at: 5, len: 8 };

/// Makes the bytes an account with nothing in it: `serum` at the front, these flags behind it, `padding` at the end,
/// and zeros between them, whatever stood there.
pub fn write_empty_account(bytes: &mut [u8], flags: u64)
    requires { 20 ≤ length bytes.old }
    ensures bytes { bytes.new ≡ empty_account (length bytes.old) flags }
    ensures framed { IsFramed bytes.new }
    ensures flags { number_in bytes.new FLAGS ≡ flags }
    ensures zeros { (field : Field) → 13 ≤ field.at → end_of field + 7 ≤ length bytes.old
        → bytes_in bytes.new field ≡ replicate field.len 0 }
{
    let end = Field {
        at: bytes.len() - END_TEXT.len(),
        len: END_TEXT.len(),
    };
    bytes.fill(0);
    put_piece(bytes, FRONT, &FRONT_TEXT);
    put_piece(bytes, end, &END_TEXT);
    put_u64(bytes, FLAGS, flags);
}
