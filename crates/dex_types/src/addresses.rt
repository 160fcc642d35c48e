ghost use Rattle.std.specs.Prelude.{◌≡◌, ◌≤◌, ◌==◌, ◌++◌, codes, not, drop, false, length, map, true, IfSome, None, Some};
ghost use Rattle.std.specs.List.{list_all};
ghost use Rattle.std.specs.Simd.Lanes.{mask_l};
ghost use Rattle.hex.specs.Hex.{encode_lower};
ghost use Rattle.std.specs.Str.{IsAscii, bytes_eq};
ghost use Rattle.dex_types.specs.Addresses as addresses;
ghost use Rattle.dex_types.specs.Text.{address_text, is_label, is_label_character, is_labelled, first_zero, front_of};

use std::fmt;
use std::hash::{Hash, Hasher};
use std::simd::prelude::*;

/// The address of an account: 32 bytes, ordered by its bytes.
///
/// It prints as its label where its bytes are one, from 1 to 24 of `a` to `z`, `0` to `9` and `_` with zeros behind
/// them, and else as `0x` and 64 hexadecimal digits in lower case.
#[derive(Clone, Copy, Debug, Eq, PartialOrd, Ord)]
pub struct Address(pub [u8; 32]);

/// All 32 bytes are compared at once, and not one by one.
impl PartialEq for Address {
    ghost use Rattle.std.proofs.Common.{rules};
    ghost use Rattle.std.specs.Cmp.Rules.{comparing};

    ghost eq = { addresses.is_same };

    ghost laws = { Prim.search (comparing, rules) };

    fn eq(&self, other: &Address) -> bool {
        has_same_bytes(&self.0, &other.0)
    }
}

/// Whether 32 bytes are the same as 32 others, by one compare of two vectors.
fn has_same_bytes(a: &[u8; 32], b: &[u8; 32]) -> bool
    ensures { result ≡ bytes_eq a.now b.now }
{
    !u8x32::from_array(*a).simd_ne(u8x32::from_array(*b)).any()
}

/// All 32 bytes are hashed at once, and not one by one.
impl Hash for Address {
    ghost use Rattle.std.specs.Prelude.{◌∷◌, []};
    ghost use Rattle.std.proofs.Common.{rules};

    ghost hash_input = { λ a. a.0 ∷ [] };

    ghost respects_eq = { Prim.search rules };

    fn hash<H: Hasher>(&self, state: &mut H) {
        state.write(&self.0);
    }
}

/// Whether two addresses have the same bytes.
pub fn is_same(a: Address, b: Address) -> bool
    ensures { result ≡ addresses.is_same a b }
{
    a == b
}

impl Address {
    /// The label that the address is, if it is one.
    pub fn label(&self) -> Option<&[u8]>
        ensures none { result ≡ None → is_labelled self.now.0 ≡ false }
        ensures label { IfSome result (λ label. label.now ≡ front_of self.now.0) }
        ensures labelled { IfSome result (λ label. is_labelled self.now.0 ≡ true) }
        ensures ascii { IfSome result (λ label. IsAscii label.now) }
        ensures short { IfSome result (λ label. length label.now ≤ 24) }
    {
        let place = first_zero(&self.0);
        let label = &self.0[..place];
        if is_label(label) && is_zero_from(&self.0, place) {
            Some(label)
        } else {
            None
        }
    }

    /// `0x` and two hexadecimal digits for each byte.
    pub fn prefixed_digits(&self) -> [u8; 66]
        ensures digits { result ≡ codes "0x" ++ encode_lower self.now.0 }
        ensures ascii { IsAscii result }
    {
        let mut text = [b'0'; 66];
        text[1] = b'x';
        text[2..].copy_from_slice(&digits_of(&self.0));
        text
    }
}

impl fmt::Display for Address {
    ghost output = { λ a. Some (address_text a) };

    #[tactic(auto, unfolding(crate::specs::Text::address_text))]
    fn fmt<W: fmt::Write>(&self, f: &mut fmt::Formatter<W>) -> fmt::Result {
        match self.label() {
            Some(label) => {
                let label = ascii(label);
                write!(f, "{label}")
            }
            None => {
                let digits = self.prefixed_digits();
                let digits = ascii(&digits);
                write!(f, "{digits}")
            }
        }
    }
}

/// The place of the first zero, or the length where there is none.
fn first_zero(bytes: &[u8; 32]) -> usize
    ensures within { result ≤ 32 }
    ensures place { result ≡ first_zero bytes.now }
{
    let zeros = zeros(u8x32::from_array(*bytes));
    if zeros == 0 {
        32
    } else {
        zeros.trailing_zeros() as usize
    }
}

/// A bit for each byte, set where it is zero.
fn zeros(bytes: u8x32) -> u64
    ensures { result ≡ mask_l (map (λ b. b == 0) bytes) }
{
    bytes.simd_eq(u8x32::splat(0)).to_bitmask()
}

/// A bit for each byte, set where it is not zero.
fn others(bytes: u8x32) -> u64
    ensures { result ≡ mask_l (map (λ b. not (b == 0)) bytes) }
{
    bytes.simd_ne(u8x32::splat(0)).to_bitmask()
}

/// Whether all bytes from this place on are zero.
fn is_zero_from(bytes: &[u8; 32], place: usize) -> bool
    requires { place ≤ 32 }
    ensures { result ≡ list_all (λ b. b == 0) (drop place bytes.now) }
{
    others(u8x32::from_array(*bytes)) >> place == 0
}

fn is_label_character(byte: u8) -> bool
    ensures { result ≡ is_label_character byte }
{
    byte.is_ascii_lowercase() || byte.is_ascii_digit() || byte == b'_'
}

fn is_label(word: &[u8]) -> bool
    ensures { result ≡ is_label word.now }
{
    1 <= word.len() && word.len() <= 24 && has_label_characters(word)
}

fn has_label_characters(word: &[u8]) -> bool
    ensures { result ≡ list_all is_label_character word.now }
{
    word.iter().all(|&b| is_label_character(b))
}

/// The text of ASCII bytes.
fn ascii(bytes: &[u8]) -> &str
    requires { IsAscii bytes.now }
    ensures { result.now ≡ bytes.now }
{
    match std::str::from_utf8(bytes) {
        Ok(text) => text,
        // ASCII is UTF-8.
        Err(_) => unreachable!(),
    }
}

/// Two hexadecimal digits for each byte, in lower case.
fn digits_of(bytes: &[u8; 32]) -> [u8; 64]
    ensures digits { result ≡ encode_lower bytes.now }
    ensures ascii { IsAscii result }
{
    let mut digits = [0; 64];
    match hex::encode_to_slice(bytes, &mut digits) {
        Ok(()) => digits,
        // Two digits for each of 32 bytes are 64.
        Err(_) => unreachable!(),
    }
}
