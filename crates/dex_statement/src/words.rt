//! The words of a field.

ghost use Rattle.std.specs.Prelude.{◌≡◌, ◌<◌, ◌≤◌, ◌==◌, ◌∷◌, [], IfOk, IfSome, MatchOption, length, take};
ghost use Rattle.std.specs.List.{position};
ghost use Rattle.dex_statement.specs.Words as script;

use dex_rows::numbers::u64_word;
use dex_types::{OrderType, SelfTrade, Side};
use std::alloc::{AllocError, Global};

/// How many words the longest form of a `do` row has.
pub(crate) const MOST_WORDS: usize = 10;

/// Puts the words of a field into `words`, and answers how many they are; None where they are more than find room.
pub(crate) fn few_words<'a>(field: &'a [u8], words: &mut [&'a [u8]; MOST_WORDS]) -> Option<usize>
    ensures within { IfSome result (λ count. count ≤ length words.new) }
    ensures words { IfSome result (λ count. script.texts (take count words.new) ≡ script.words_of field.now) }
{
    let mut start = 0;
    let mut count = 0;
    'bytes: for place in 0..field.len() {
        if field[place] == b' ' {
            if count == MOST_WORDS - 1 {
                return None;
            }
            words[count] = &field[start..place];
            count += 1;
            start = place + 1;
        }
    }
    words[count] = &field[start..];
    Some(count + 1)
}

/// The words of a field: what stands before, between and after its spaces.
pub(crate) fn words_of(alloc: Global, field: &[u8]) -> Result<Vec<&[u8]>, AllocError>
    ensures { IfOk result (λ found. script.texts found.items ≡ script.words_of field.now) }
{
    let mut words = Vec::with_capacity(alloc, MOST_WORDS)?;
    let mut rest = field;
    'words: while let Some((word, behind)) = first_word(rest) {
        words.push(word)?;
        rest = behind;
    }
    words.push(rest)?;
    Ok(words)
}

/// The first word of a field, and what stands after the space that ends it; None where the field has no space.
pub(crate) fn first_word(field: &[u8]) -> Option<(&[u8], &[u8])>
    ensures words { MatchOption result (script.words_of field.now ≡ field.now ∷ [])
        (λ parts. script.words_of field.now ≡ parts.0.now ∷ script.words_of parts.1.now) }
    ensures shorter { IfSome result (λ parts. length parts.1.now < length field.now) }
{
    match first_space(field) {
        None => None,
        Some(place) => Some((&field[..place], &field[place + 1..])),
    }
}

/// The place of the first space of a field.
fn first_space(field: &[u8]) -> Option<usize>
    ensures { result ≡ position (λ byte. byte == 32) field.now }
{
    field.iter().position(|&byte| byte == b' ')
}

/// The word at a place, counted from 0; no bytes after the last.
pub(crate) fn word_at<'a>(words: &[&'a [u8]], place: usize) -> &'a [u8]
    ensures { result.now ≡ script.field_at (script.texts words.now) place }
{
    if place < words.len() {
        words[place]
    } else {
        &[]
    }
}

/// The side that a word names.
pub(crate) fn side_of(word: &[u8]) -> Option<Side>
    ensures { result ≡ script.side_of word.now }
{
    if word == b"bid".as_slice() {
        Some(Side::Bid)
    } else if word == b"ask".as_slice() {
        Some(Side::Ask)
    } else {
        None
    }
}

/// The self-trade rule that a word names.
pub(crate) fn self_trade_of(word: &[u8]) -> Option<SelfTrade>
    ensures { result ≡ script.self_trade_of word.now }
{
    if word == b"decrement".as_slice() {
        Some(SelfTrade::Decrement)
    } else if word == b"cancel".as_slice() {
        Some(SelfTrade::CancelProvide)
    } else if word == b"abort".as_slice() {
        Some(SelfTrade::Abort)
    } else {
        None
    }
}

/// The order type that a word names.
pub(crate) fn order_type_of(word: &[u8]) -> Option<OrderType>
    ensures { result ≡ script.order_type_of word.now }
{
    if word == b"limit".as_slice() {
        Some(OrderType::Limit)
    } else if word == b"ioc".as_slice() {
        Some(OrderType::Ioc)
    } else if word == b"post".as_slice() {
        Some(OrderType::PostOnly)
    } else {
        None
    }
}

/// The time that a number is, where it is below 2^63.
pub(crate) fn time_of(number: u64) -> Option<i64>
    ensures { result ≡ script.time_of number }
{
    if number < 1 << 63 {
        Some(number.cast_signed())
    } else {
        None
    }
}

/// The time that a word writes: a number below 2^63.
#[tactic(auto, unfolding(crate::specs::Words::time_word))]
pub(crate) fn time_word(word: &[u8]) -> Option<i64>
    ensures { result ≡ script.time_word word.now }
{
    time_of(u64_word(word)?)
}
