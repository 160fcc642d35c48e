ghost use Rattle.std.specs.Prelude.{◌≡◌, ◌<◌, ◌≤◌, ◌^◌, IfSome, MatchOption, length, true, false};
ghost use Rattle.std.specs.Char.{is_ascii_digit};
ghost use Rattle.std.specs.List.{list_all};
ghost use Rattle.std.specs.Str.Parse.{digits_value};
ghost use Rattle.dex_rows.specs.Numbers.{is_bare, is_numeral, number_of};

use std::str;

/// The number below 2^8 that a word writes in decimal, with no sign and no zeros in front.
pub fn u8_word(text: &[u8]) -> Option<u8>
    ensures { result ≡ number_of (2 ^ 8) text.now }
{
    numeral(text)?.parse::<u8>().ok()
}

/// The number below 2^16 that a word writes in decimal, with no sign and no zeros in front.
pub fn u16_word(text: &[u8]) -> Option<u16>
    ensures { result ≡ number_of (2 ^ 16) text.now }
{
    match number_below(text, 1 << 16) {
        None => None,
        Some(number) => Some(number as u16),
    }
}

/// The number below 2^32 that a word writes in decimal, with no sign and no zeros in front.
pub fn u32_word(text: &[u8]) -> Option<u32>
    ensures { result ≡ number_of (2 ^ 32) text.now }
{
    match number_below(text, 1 << 32) {
        None => None,
        Some(number) => Some(number as u32),
    }
}

// The number below a limit that a word writes.
fn number_below(text: &[u8], limit: u64) -> Option<u64>
    requires { limit ≤ 2 ^ 32 }
    ensures number { result ≡ number_of limit text.now }
    ensures below { IfSome result (λ number. number < limit) }
{
    match u64_word(text) {
        None => None,
        Some(number) => { if number < limit { Some(number) } else { None } }
    }
}

/// The number below 2^64 that a word writes in decimal, with no sign and no zeros in front.
pub fn u64_word(text: &[u8]) -> Option<u64>
    ensures { result ≡ number_of (2 ^ 64) text.now }
{
    if text.len() <= 19 {
        short_word(text)
    } else {
        long_word(text)
    }
}

// The number that at most 19 digits write, with no zeros in front: any such number is below 2^64.
fn short_word(text: &[u8]) -> Option<u64>
    requires { length text.now ≤ 19 }
    ensures { result ≡ number_of (2 ^ 64) text.now }
{
    if is_bare(text) {
        digits_value(text)
    } else {
        None
    }
}

// Whether a word is not empty and has no zero in front of other bytes.
#[tactic(auto, unfolding(crate::specs::Numbers::is_bare))]
fn is_bare(text: &[u8]) -> bool
    ensures { result ≡ is_bare text.now }
{
    !text.is_empty() && (text.len() == 1 || text[0] != b'0')
}

// The number that at most 19 digits write, if they are digits: one pass over them.
fn digits_value(digits: &[u8]) -> Option<u64>
    requires { length digits.now ≤ 19 }
    ensures { MatchOption result (list_all is_ascii_digit digits.now ≡ false)
        (λ value. (list_all is_ascii_digit digits.now ≡ true) × (value ≡ digits_value 10 digits.now)) }
{
    let mut value = 0;
    'digits: for place in 0..digits.len() {
        let digit = digits[place].wrapping_sub(b'0');
        if 9 < digit {
            return None;
        }
        value = value * 10 + u64::from(digit);
    }
    Some(value)
}

// The number below 2^64 that a word of any length writes.
fn long_word(text: &[u8]) -> Option<u64>
    ensures { result ≡ number_of (2 ^ 64) text.now }
{
    numeral(text)?.parse::<u64>().ok()
}

/// The number below 2^128 that a word writes in decimal, with no sign and no zeros in front.
pub fn u128_word(text: &[u8]) -> Option<u128>
    ensures { result ≡ number_of (2 ^ 128) text.now }
{
    numeral(text)?.parse::<u128>().ok()
}

// Whether a word is decimal digits with no zero in front of others.
fn is_numeral(text: &[u8]) -> bool
    ensures { result ≡ is_numeral text.now }
{
    is_bare(text) && all_digits(text)
}

// Whether each byte is a decimal digit.
fn all_digits(text: &[u8]) -> bool
    ensures { result ≡ list_all is_ascii_digit text.now }
{
    text.iter().all(|c| c.is_ascii_digit())
}

// The word as text, where it is a numeral.
fn numeral(text: &[u8]) -> Option<&str>
    ensures { MatchOption result (is_numeral text.now ≡ false)
        (λ digits. (digits.now ≡ text.now) × (is_numeral text.now ≡ true)) }
{
    if is_numeral(text) {
        str::from_utf8(text).ok()
    } else {
        None
    }
}
