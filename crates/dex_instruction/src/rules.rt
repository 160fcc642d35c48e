//! The rules that instruction data can break.

ghost use Rattle.std.specs.Prelude.{◌≡◌, ◌+◌, ◌≤◌, ◌-◌, length, true};
ghost use Rattle.dex_instruction.specs.Rules.{is_body_length, is_retired, is_zero_at, is_above_at, has_zero_field, has_bad_enum, broken};

use crate::numbers::{u8_at, u32_at, u64_at};
use dex_types::BadData;

/// An instruction of an earlier version had the tag.
fn is_retired(tag: u32) -> bool
    ensures { result ≡ is_retired tag }
{
    matches!(tag, 1 | 4 | 6 | 9 | 17)
}

/// The body of the tag's instruction can have this many bytes.
fn is_body_length(tag: u32, size: usize) -> bool
    ensures { result ≡ is_body_length tag size }
{
    match tag {
        0 => size == 34,
        2 | 3 | 16 => size == 2,
        10 => size == 46 || size == 54,
        11 => size == 20,
        12 => size == 8,
        13 => size == 46,
        18 => size % 8 == 0 && 8 <= size && size <= 64,
        _ => size == 0,
    }
}

fn is_zero_at(bytes: &[u8], at: usize) -> bool
    requires { at + 8 ≤ length bytes.now }
    ensures { result ≡ is_zero_at at bytes.now }
{
    u64_at(bytes, at) == 0
}

/// One of the fields that must not be 0 is 0.
fn has_zero_field(tag: u32, bytes: &[u8]) -> bool
    requires behind_tag { 5 ≤ length bytes.now }
    requires whole { is_body_length tag (length bytes.now - 5) ≡ true }
    ensures { result ≡ has_zero_field tag bytes.now }
{
    match tag {
        0 => is_zero_at(bytes, 5) || is_zero_at(bytes, 13) || is_zero_at(bytes, 31),
        10 | 13 => is_zero_at(bytes, 9) || is_zero_at(bytes, 17) || is_zero_at(bytes, 25),
        _ => false,
    }
}

fn is_above_at(top: u32, bytes: &[u8], at: usize) -> bool
    requires { at + 4 ≤ length bytes.now }
    ensures { result ≡ is_above_at top at bytes.now }
{
    u32_at(bytes, at) > top
}

/// A side, a self-trade rule or an order type is none.
fn has_bad_enum(tag: u32, bytes: &[u8]) -> bool
    requires behind_tag { 5 ≤ length bytes.now }
    requires whole { is_body_length tag (length bytes.now - 5) ≡ true }
    ensures { result ≡ has_bad_enum tag bytes.now }
{
    match tag {
        10 => is_above_at(1, bytes, 5) || is_above_at(2, bytes, 33) || is_above_at(2, bytes, 37),
        11 | 13 => is_above_at(1, bytes, 5),
        _ => false,
    }
}

/// The first rule that the data breaks, if it breaks one.
#[tactic(auto, unfolding(crate::specs::Rules::broken))]
pub(crate) fn broken(bytes: &[u8]) -> Option<BadData>
    ensures { result ≡ broken bytes.now }
{
    if bytes.len() < 5 {
        return Some(BadData::Short);
    }
    if u8_at(bytes, 0) != 0 {
        return Some(BadData::Version);
    }
    let tag = u32_at(bytes, 1);
    if tag > 18 {
        return Some(BadData::UnknownTag);
    }
    if is_retired(tag) {
        return Some(BadData::RetiredTag);
    }
    if !is_body_length(tag, bytes.len() - 5) {
        return Some(BadData::Length);
    }
    if has_zero_field(tag, bytes) {
        return Some(BadData::ZeroField);
    }
    if has_bad_enum(tag, bytes) {
        return Some(BadData::BadEnum);
    }
    None
}
