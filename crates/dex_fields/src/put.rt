//! Writing one field in place.

ghost use Rattle.std.specs.Prelude.{◌≡◌, length};
ghost use Rattle.dex_fields.specs.Bytes.{ChangesOnly, IsWithin, bytes_in, bytes_of_number, number_in, with_bytes, with_number};

use crate::Field;

/// Writes the piece into the field, which it fills; all other bytes stay.
pub fn put_piece(bytes: &mut [u8], field: Field, piece: &[u8])
    requires within { IsWithin field bytes.old }
    requires whole { length piece.now ≡ field.len }
    ensures bytes { bytes.new ≡ with_bytes bytes.old field piece.now }
    ensures others { ChangesOnly field bytes.old bytes.new }
{
    bytes[field.at..field.at + field.len].copy_from_slice(piece);
}

/// Writes the byte into the field; all other bytes stay.
pub fn put_u8(bytes: &mut [u8], field: Field, value: u8)
    requires within { IsWithin field bytes.old }
    requires wide { field.len ≡ 1 }
    ensures bytes { bytes.new ≡ with_number bytes.old field value }
    ensures given { number_in bytes.new field ≡ value }
    ensures others { ChangesOnly field bytes.old bytes.new }
{
    bytes[field.at] = value;
}

/// Writes the number into the field, its lowest byte first; all other bytes stay.
pub fn put_u32(bytes: &mut [u8], field: Field, value: u32)
    requires within { IsWithin field bytes.old }
    requires wide { field.len ≡ 4 }
    ensures bytes { bytes.new ≡ with_number bytes.old field value }
    ensures given { number_in bytes.new field ≡ value }
    ensures others { ChangesOnly field bytes.old bytes.new }
{
    put_piece(bytes, field, &u32::to_le_bytes(value));
}

/// Writes the number into the field, its lowest byte first; all other bytes stay.
pub fn put_u64(bytes: &mut [u8], field: Field, value: u64)
    requires within { IsWithin field bytes.old }
    requires wide { field.len ≡ 8 }
    ensures bytes { bytes.new ≡ with_number bytes.old field value }
    ensures given { number_in bytes.new field ≡ value }
    ensures others { ChangesOnly field bytes.old bytes.new }
{
    put_piece(bytes, field, &u64::to_le_bytes(value));
}

/// Writes the number into the field, its lowest byte first; all other bytes stay.
pub fn put_u128(bytes: &mut [u8], field: Field, value: u128)
    requires within { IsWithin field bytes.old }
    requires wide { field.len ≡ 16 }
    ensures bytes { bytes.new ≡ with_number bytes.old field value }
    ensures given { number_in bytes.new field ≡ value }
    ensures others { ChangesOnly field bytes.old bytes.new }
{
    put_piece(bytes, field, &halves(value));
}

/// The bytes of a number, its lowest first: those of its lower half, and those of its upper half. Each half is one word
/// of the processor, so no byte is moved alone.
fn halves(value: u128) -> [u8; 16]
    ensures { result ≡ bytes_of_number 16 value }
{
    let low = (value % 0x1_0000_0000_0000_0000) as u64;
    let high = (value >> 64) as u64;
    let mut bytes = [0; 16];
    bytes[..8].copy_from_slice(&low.to_le_bytes());
    bytes[8..].copy_from_slice(&high.to_le_bytes());
    bytes
}

/// Writes the 32 bytes into the field; all other bytes stay.
pub fn put_addr(bytes: &mut [u8], field: Field, value: [u8; 32])
    requires within { IsWithin field bytes.old }
    requires wide { field.len ≡ 32 }
    ensures bytes { bytes.new ≡ with_bytes bytes.old field value }
    ensures given { bytes_in bytes.new field ≡ value }
    ensures others { ChangesOnly field bytes.old bytes.new }
{
    put_piece(bytes, field, &value);
}
