//! The instruction that the words of a `do` row ask for.

ghost use Rattle.std.specs.Prelude.{◌≡◌, ◌≤◌, ◌∷◌, [], IfOk, MatchResult, drop, length, take};
ghost use Rattle.dex_instruction.specs.Spelling.{spelling};
ghost use Rattle.dex_statement.specs.OrderWords as order;
ghost use Rattle.dex_statement.specs.Telling.{TellsIn};
ghost use Rattle.dex_statement.specs.Words.{field_at, order_type_of, self_trade_of, side_of, texts, words_of};

use crate::faults::{FaultKind, RowError};
use crate::words::{
    MOST_WORDS, few_words, order_type_of, self_trade_of, side_of, time_word, word_at, words_of,
};
use dex_instruction::encode;
use dex_rows::numbers::{u16_word, u64_word, u128_word};
use dex_types::{ClientIds, Ix, OrderType, SelfTrade, Side};
use std::alloc::Global;

/// The first word of a `do` row, which names the instruction.
#[derive(Clone, Copy, Debug, PartialEq, Eq)]
pub enum Verb {
    Init,
    Close,
    Settle,
    Disable,
    Sweep,
    Match,
    Consume,
    Prune,
    New,
    Take,
    Cancel,
    CancelByClient,
    CancelByClients,
}

/// Reads the instruction's bytes that the words of a field ask for. It takes memory for the words only where they are
/// more than the longest form has.
pub(crate) fn read_data(alloc: Global, field: &[u8], bytes: &mut Vec<u8>) -> Result<(), RowError>
    ensures { TellsIn result bytes.new.items (order.data_of (words_of field.now)) }
{
    let none: &[u8] = &[];
    let mut words = [none; MOST_WORDS];
    match few_words(field, &mut words) {
        Some(count) => read_words(&words[..count], bytes),
        None => read_many(alloc, field, bytes),
    }
}

/// Like `read_data`, of any number of words.
#[inline(never)]
fn read_many(alloc: Global, field: &[u8], bytes: &mut Vec<u8>) -> Result<(), RowError>
    ensures { TellsIn result bytes.new.items (order.data_of (words_of field.now)) }
{
    let words = words_of(alloc, field)?;
    read_words(&words, bytes)
}

/// Reads the instruction's bytes that the words of a `do` row ask for.
#[tactic(auto, unfolding(crate::specs::OrderWords::data_of))]
fn read_words(words: &[&[u8]], bytes: &mut Vec<u8>) -> Result<(), RowError>
    ensures { TellsIn result bytes.new.items (order.data_of (texts words.now)) }
{
    let ix = match verb_of(word_at(words, 0)) {
        None => return Err(RowError::Fault(FaultKind::UnknownRow)),
        Some(verb) => ix_of(verb, words)?,
    };
    write_spelling(&ix, bytes)
}

/// Writes the bytes that spell an instruction in place of those that are there.
fn write_spelling(ix: &Ix, bytes: &mut Vec<u8>) -> Result<(), RowError>
    ensures { TellsIn result bytes.new.items (Ok (spelling ix.now)) }
{
    let mut out = [0; 128];
    let count = encode(ix, &mut out);
    bytes.clear();
    bytes.reserve_exact(count)?;
    bytes.extend_from_slice(&out[..count])?;
    Ok(())
}

/// The verb that a word is.
fn verb_of(word: &[u8]) -> Option<Verb>
    ensures { result ≡ order.verb_of word.now }
{
    if word == b"new".as_slice() {
        Some(Verb::New)
    } else if word == b"take".as_slice() {
        Some(Verb::Take)
    } else if word == b"cancel".as_slice() {
        Some(Verb::Cancel)
    } else if word == b"cancelc".as_slice() {
        Some(Verb::CancelByClient)
    } else if word == b"cancels".as_slice() {
        Some(Verb::CancelByClients)
    } else if word == b"match".as_slice() {
        Some(Verb::Match)
    } else if word == b"consume".as_slice() {
        Some(Verb::Consume)
    } else if word == b"prune".as_slice() {
        Some(Verb::Prune)
    } else {
        bare_verb_of(word)
    }
}

/// The verb without further words that a word is.
fn bare_verb_of(word: &[u8]) -> Option<Verb>
    ensures { result ≡ order.bare_verb_of word.now }
{
    if word == b"init".as_slice() {
        Some(Verb::Init)
    } else if word == b"close".as_slice() {
        Some(Verb::Close)
    } else if word == b"settle".as_slice() {
        Some(Verb::Settle)
    } else if word == b"disable".as_slice() {
        Some(Verb::Disable)
    } else if word == b"sweep".as_slice() {
        Some(Verb::Sweep)
    } else {
        None
    }
}

/// The instruction of a verb and the words after it.
fn ix_of(verb: Verb, words: &[&[u8]]) -> Result<Ix, FaultKind>
    ensures { order.Spells result (order.bytes_of verb (texts words.now)) }
{
    match verb {
        Verb::Init => bare_ix(Ix::InitOpenOrders, words),
        Verb::Close => bare_ix(Ix::CloseOpenOrders, words),
        Verb::Settle => bare_ix(Ix::SettleFunds, words),
        Verb::Disable => bare_ix(Ix::DisableMarket, words),
        Verb::Sweep => bare_ix(Ix::SweepFees, words),
        Verb::Match => Ok(Ix::MatchOrders {
            limit: limit_of(words)?,
        }),
        Verb::Consume => Ok(Ix::ConsumeEvents {
            limit: limit_of(words)?,
        }),
        Verb::Prune => Ok(Ix::Prune {
            limit: limit_of(words)?,
        }),
        Verb::New => order_of(words),
        Verb::Take => take_of(words),
        Verb::Cancel => cancel_of(words),
        Verb::CancelByClient => cancel_by_client_of(words),
        Verb::CancelByClients => cancels_of(words),
    }
}

/// An instruction without fields, of a verb alone.
fn bare_ix(ix: Ix, words: &[&[u8]]) -> Result<Ix, FaultKind>
    ensures { result ≡ order.bare_ix ix (texts words.now) }
{
    if words.len() == 1 {
        Ok(ix)
    } else {
        Err(FaultKind::FieldCount)
    }
}

/// How many orders or events the one word after a verb says.
#[tactic(auto, unfolding(crate::specs::OrderWords::limit_of))]
fn limit_of(words: &[&[u8]]) -> Result<u16, FaultKind>
    ensures { result ≡ order.limit_of (texts words.now) }
{
    if words.len() != 2 {
        return Err(FaultKind::FieldCount);
    }
    limit_at(words, 1)
}

/// The number of 16 bits that the word at a place writes.
fn limit_at(words: &[&[u8]], place: usize) -> Result<u16, FaultKind>
    ensures { result ≡ order.limit_at (texts words.now) place }
{
    u16_word(word_at(words, place)).ok_or(FaultKind::BadNumber)
}

/// The number of 64 bits that the word at a place writes.
fn amount_at(words: &[&[u8]], place: usize) -> Result<u64, FaultKind>
    ensures { result ≡ order.amount_at (texts words.now) place }
{
    u64_word(word_at(words, place)).ok_or(FaultKind::BadNumber)
}

/// The side that the word at a place names.
fn side_at(words: &[&[u8]], place: usize) -> Result<Side, FaultKind>
    ensures { result ≡ order.side_at (texts words.now) place }
{
    side_of(word_at(words, place)).ok_or(FaultKind::UnknownRow)
}

/// Whether a word that stands at a place is to be a side and is none.
fn is_strange_side(words: &[&[u8]], place: usize) -> bool
    ensures { result ≡ order.is_strange_side (texts words.now) place }
{
    place < words.len() && side_of(word_at(words, place)).is_none()
}

/// Whether one of an order's words that are of a list is not, by what they name.
fn is_strange_order(
    words: &[&[u8]],
    side: Option<Side>,
    self_trade: Option<SelfTrade>,
    order_type: Option<OrderType>,
) -> bool
    requires side { side ≡ side_of (field_at (texts words.now) 1) }
    requires self_trade { self_trade ≡ self_trade_of (field_at (texts words.now) 5) }
    requires order_type { order_type ≡ order_type_of (field_at (texts words.now) 6) }
    ensures { result ≡ order.is_strange_order (texts words.now) }
{
    (1 < words.len() && side.is_none())
        || (5 < words.len() && self_trade.is_none())
        || (6 < words.len() && order_type.is_none())
}

/// The latest time that the word after an order's others says, where there is one.
#[tactic(auto, unfolding(crate::specs::OrderWords::latest_of))]
fn latest_of(words: &[&[u8]]) -> Result<Option<i64>, FaultKind>
    ensures { result ≡ order.latest_of (texts words.now) }
{
    if words.len() != 10 {
        return Ok(None);
    }
    let latest = time_word(word_at(words, 9)).ok_or(FaultKind::BadNumber)?;
    Ok(Some(latest))
}

/// The new order that words ask for. Each word that is of a list is looked up once.
#[tactic(auto, unfolding(crate::specs::OrderWords::order_of))]
fn order_of(words: &[&[u8]]) -> Result<Ix, FaultKind>
    ensures { result ≡ order.order_of (texts words.now) }
{
    let side = side_of(word_at(words, 1));
    let self_trade = self_trade_of(word_at(words, 5));
    let order_type = order_type_of(word_at(words, 6));
    if is_strange_order(words, side, self_trade, order_type) {
        return Err(FaultKind::UnknownRow);
    }
    if words.len() != 9 && words.len() != 10 {
        return Err(FaultKind::FieldCount);
    }
    order_in(words, side, self_trade, order_type)
}

/// The new order whose fields stand in words, by place, and of which this is known.
#[tactic(auto, unfolding(crate::specs::OrderWords::order_in))]
fn order_in(
    words: &[&[u8]],
    side: Option<Side>,
    self_trade: Option<SelfTrade>,
    order_type: Option<OrderType>,
) -> Result<Ix, FaultKind>
    requires side { side ≡ side_of (field_at (texts words.now) 1) }
    requires self_trade { self_trade ≡ self_trade_of (field_at (texts words.now) 5) }
    requires order_type { order_type ≡ order_type_of (field_at (texts words.now) 6) }
    ensures { result ≡ order.order_in (texts words.now) }
{
    Ok(Ix::NewOrderV3 {
        side: side.ok_or(FaultKind::UnknownRow)?,
        limit_price: amount_at(words, 2)?,
        max_coin_qty: amount_at(words, 3)?,
        max_native_pc_qty_including_fees: amount_at(words, 4)?,
        self_trade_behavior: self_trade.ok_or(FaultKind::UnknownRow)?,
        order_type: order_type.ok_or(FaultKind::UnknownRow)?,
        client_order_id: amount_at(words, 7)?,
        limit: limit_at(words, 8)?,
        max_ts: latest_of(words)?,
    })
}

/// The take that words ask for.
#[tactic(auto, unfolding(crate::specs::OrderWords::take_of))]
fn take_of(words: &[&[u8]]) -> Result<Ix, FaultKind>
    ensures { result ≡ order.take_of (texts words.now) }
{
    if is_strange_side(words, 1) {
        return Err(FaultKind::UnknownRow);
    }
    if words.len() != 8 {
        return Err(FaultKind::FieldCount);
    }
    Ok(Ix::SendTake {
        side: side_at(words, 1)?,
        limit_price: amount_at(words, 2)?,
        max_coin_qty: amount_at(words, 3)?,
        max_native_pc_qty_including_fees: amount_at(words, 4)?,
        min_coin_qty: amount_at(words, 5)?,
        min_native_pc_qty: amount_at(words, 6)?,
        limit: limit_at(words, 7)?,
    })
}

/// The cancel of one order, by its id, that words ask for.
#[tactic(auto, unfolding(crate::specs::OrderWords::cancel_of))]
fn cancel_of(words: &[&[u8]]) -> Result<Ix, FaultKind>
    ensures { result ≡ order.cancel_of (texts words.now) }
{
    if is_strange_side(words, 1) {
        return Err(FaultKind::UnknownRow);
    }
    if words.len() != 3 {
        return Err(FaultKind::FieldCount);
    }
    Ok(Ix::CancelOrderV2 {
        side: side_at(words, 1)?,
        order_id: u128_word(word_at(words, 2)).ok_or(FaultKind::BadNumber)?,
    })
}

/// The cancel of one order, by its client id, that words ask for.
#[tactic(auto, unfolding(crate::specs::OrderWords::cancel_by_client_of))]
fn cancel_by_client_of(words: &[&[u8]]) -> Result<Ix, FaultKind>
    ensures { result ≡ order.cancel_by_client_of (texts words.now) }
{
    if words.len() != 2 {
        return Err(FaultKind::FieldCount);
    }
    Ok(Ix::CancelOrderByClientIdV2 {
        client_order_id: amount_at(words, 1)?,
    })
}

/// The cancel of one to eight orders, by their client ids, that words ask for.
#[tactic(auto, unfolding(crate::specs::OrderWords::cancels_of))]
fn cancels_of(words: &[&[u8]]) -> Result<Ix, FaultKind>
    ensures { order.Spells result (order.cancels_of (texts words.now)) }
{
    if words.len() < 2 || 9 < words.len() {
        return Err(FaultKind::FieldCount);
    }
    let mut ids = [0; 8];
    'ids: for place in 1..words.len() {
        ids[place - 1] = u64_word(words[place]).ok_or(FaultKind::BadNumber)?;
    }
    Ok(Ix::CancelOrdersByClientIds {
        ids: ClientIds::new(&ids[..words.len() - 1]),
    })
}
