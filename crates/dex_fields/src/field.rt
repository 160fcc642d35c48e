//! A field of an account, and reading it.

ghost use Rattle.std.specs.Prelude.{◌≡◌, ◌+◌, ◌*◌, ◌^◌, ◌<◌, length, IsTrue};
ghost use Rattle.dex_fields.specs.Tiling.{Tile, tiles_from};
ghost use Rattle.dex_fields.specs.Bytes.{IsWithin, bytes_in, number_in};

/// A run of bytes of an account.
#[derive(Clone, Copy, Debug, PartialEq, Eq)]
pub struct Field {
    /// The place of its first byte, counted from the first byte of the account.
    pub at: usize,
    /// How many bytes it has.
    pub len: usize,
}

impl Field {
    ghost use Rattle.dex_fields.specs.Bytes.{end_of, moved_by, item_of};

    /// This field in a record that stands `base` bytes into the account.
    pub fn moved_by(self, base: usize) -> Field
        requires { base + end_of self < 2 ^ 64 }
        ensures { result ≡ moved_by base self }
    {
        Field {
            at: base + self.at,
            len: self.len,
        }
    }

    /// Item number `index` of a field that holds items of `width` bytes one after another.
    pub fn item(self, width: usize, index: usize) -> Field
        requires { self.at + (index + 1) * width < 2 ^ 64 }
        ensures { result ≡ item_of self width index }
    {
        Field {
            at: self.at + index * width,
            len: width,
        }
    }
}

/// The table of an account's fields, its padding among them, in the order in which they stand.
#[derive(Clone, Copy, Debug, PartialEq, Eq)]
pub struct Layout<const N: usize> {
    /// How many bytes the fields fill together.
    pub size: usize,
    pub fields: [Field; N],
}

// The law of every table, by the test of that table.
pub(crate) fn tiles_by_test<const N: usize>(layout: &Layout<N>)
    requires { IsTrue (tiles_from 0 layout.now.fields layout.now.size) }
    ensures { Tile layout.now.fields layout.now.size }
{}

// The bytes that stand in the field.
pub(crate) fn piece(bytes: &[u8], field: Field) -> &[u8]
    requires { IsWithin field bytes.now }
    ensures value { result.now ≡ bytes_in bytes.now field }
    ensures len { length result.now ≡ field.len }
{
    &bytes[field.at..field.at + field.len]
}

/// The byte that stands in the field.
pub fn get_u8(bytes: &[u8], field: Field) -> u8
    requires within { IsWithin field bytes.now }
    requires wide { field.len ≡ 1 }
    ensures { result ≡ number_in bytes.now field }
{
    bytes[field.at]
}

/// The number that stands in the field, its lowest byte first.
pub fn get_u32(bytes: &[u8], field: Field) -> u32
    requires within { IsWithin field bytes.now }
    requires wide { field.len ≡ 4 }
    ensures { result ≡ number_in bytes.now field }
{
    let mut copy = [0u8; 4];
    copy.copy_from_slice(piece(bytes, field));
    u32::from_le_bytes(copy)
}

/// The number that stands in the field, its lowest byte first.
pub fn get_u64(bytes: &[u8], field: Field) -> u64
    requires within { IsWithin field bytes.now }
    requires wide { field.len ≡ 8 }
    ensures { result ≡ number_in bytes.now field }
{
    let mut copy = [0u8; 8];
    copy.copy_from_slice(piece(bytes, field));
    u64::from_le_bytes(copy)
}

/// The number that stands in the field, its lowest byte first.
pub fn get_u128(bytes: &[u8], field: Field) -> u128
    requires within { IsWithin field bytes.now }
    requires wide { field.len ≡ 16 }
    ensures { result ≡ number_in bytes.now field }
{
    let mut copy = [0u8; 16];
    copy.copy_from_slice(piece(bytes, field));
    u128::from_le_bytes(copy)
}

/// The 32 bytes that stand in the field.
pub fn get_addr(bytes: &[u8], field: Field) -> [u8; 32]
    requires within { IsWithin field bytes.now }
    requires wide { field.len ≡ 32 }
    ensures { result ≡ bytes_in bytes.now field }
{
    let mut copy = [0u8; 32];
    copy.copy_from_slice(piece(bytes, field));
    copy
}
