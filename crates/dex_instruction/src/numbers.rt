//! Numbers at a place of some bytes, the lowest byte first.

ghost use Rattle.std.specs.Prelude.{◌≡◌, ◌+◌, ◌≤◌, length};
ghost use Rattle.dex_instruction.specs.Numbers.{number_at};
ghost use Rattle.dex_instruction.specs.Writing.{written};

use byteorder::{ByteOrder, LittleEndian};

#[tactic(auto, unfolding(crate::specs::Numbers::number_at))]
pub(crate) fn u8_at(bytes: &[u8], at: usize) -> u8
    requires { at + 1 ≤ length bytes.now }
    ensures { result ≡ number_at 1 at bytes.now }
{
    bytes[at]
}

#[tactic(auto, unfolding(crate::specs::Numbers::number_at))]
pub(crate) fn u16_at(bytes: &[u8], at: usize) -> u16
    requires { at + 2 ≤ length bytes.now }
    ensures { result ≡ number_at 2 at bytes.now }
{
    LittleEndian::read_u16(bytes.split_at(at).1)
}

#[tactic(auto, unfolding(crate::specs::Numbers::number_at))]
pub(crate) fn u32_at(bytes: &[u8], at: usize) -> u32
    requires { at + 4 ≤ length bytes.now }
    ensures { result ≡ number_at 4 at bytes.now }
{
    LittleEndian::read_u32(bytes.split_at(at).1)
}

#[tactic(auto, unfolding(crate::specs::Numbers::number_at))]
pub(crate) fn u64_at(bytes: &[u8], at: usize) -> u64
    requires { at + 8 ≤ length bytes.now }
    ensures { result ≡ number_at 8 at bytes.now }
{
    LittleEndian::read_u64(bytes.split_at(at).1)
}

#[tactic(auto, unfolding(crate::specs::Numbers::number_at))]
pub(crate) fn u128_at(bytes: &[u8], at: usize) -> u128
    requires { at + 16 ≤ length bytes.now }
    ensures { result ≡ number_at 16 at bytes.now }
{
    LittleEndian::read_u128(bytes.split_at(at).1)
}

/// Writes the bytes from the place on, and answers the place after them.
pub(crate) fn put<const N: usize>(out: &mut [u8; 128], at: usize, bytes: [u8; N]) -> usize
    requires { at + N ≤ 128 }
    ensures end { result ≡ at + N }
    ensures bytes { out.new ≡ written at bytes.entry out.old }
{
    let end = at + N;
    out[at..end].copy_from_slice(&bytes);
    end
}
