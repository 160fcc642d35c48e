//! The lines of journals. A line is put together from its last word to its first, in one array, and stands at its end.

ghost use Rattle.std.specs.Prelude.{◌≡◌, ◌+◌, ◌<◌, ◌≤◌, [], ◌∷◌, ◌++◌, OnOk, Some, drop, false, length};
ghost use Rattle.dex_history.specs.Journal.{is_refusal};
ghost use Rattle.std.specs.Fmt.{decimal};
ghost use Rattle.std.specs.List.{flat_map};
ghost use Rattle.dex_types.specs.MovementText.{kind_text};
ghost use Rattle.dex_types.specs.Text.{address_text, refusal_text, reply_text, spaced};
ghost use Rattle.dex_report.specs.Report as texts;
ghost use Rattle.dex_report.specs.Telling.{FitEntry, FitWalletEntry};

use crate::fitting::{address_fits, entry_fits};
use dex_types::{Address, Entry, MoveKind, Movement, Refusal, Reply, WalletEntry};
use itoa::{Buffer, write_digits};
use std::alloc::AllocError;
use std::fmt::Write;

/// How many bytes a line of a journal has at most, without the text of a refusal.
pub const LINE: usize = 768;

/// Writes the line of an entry of a market's journal. What was written fits, as the types of its values have it.
pub fn write_entry(
    text: &mut Vec<u8>,
    line: &mut [u8; LINE],
    entry: &Entry,
) -> Result<(), AllocError>
    ensures fits { OnOk result (FitEntry entry.now) }
    ensures text { OnOk result (text.new.items ≡ text.old.items ++ texts.entry_line entry.now) }
{
    entry_fits(entry);
    let end = put_end(line);
    let tail = put_moves(line, &entry.moves, end);
    match entry.reply {
        Reply::Refused(why) => {
            push_front(text, entry)?;
            push_refusal(text, why)?;
            push_from(text, line, tail)
        }
        reply => {
            let reply = put_reply(line, reply, tail);
            let start = put_front(line, entry, reply);
            push_from(text, line, start)
        }
    }
}

/// Writes the line of an entry of a wallet's journal, whose values fit likewise.
pub(crate) fn write_move(
    text: &mut Vec<u8>,
    line: &mut [u8; LINE],
    entry: &WalletEntry,
) -> Result<(), AllocError>
    ensures fits { OnOk result (FitWalletEntry entry.now) }
    ensures text { OnOk result (text.new.items ≡ text.old.items ++ texts.move_line entry.now) }
{
    address_fits(entry.market);
    let end = put_end(line);
    let moved = put_moved(line, entry.kind, entry.amount, entry.before, end);
    let lane = put_two(line, entry.lane as u64, entry.row as u64, moved);
    let market = put_address(line, &entry.market, lane);
    let start = put_word(line, b"move", market);
    push_from(text, line, start)
}

/// Writes a line of a word, an address where there is one, and a number.
pub fn write_head(
    text: &mut Vec<u8>,
    word: &[u8],
    address: Option<Address>,
    number: u64,
) -> Result<(), AllocError>
    requires { length word.now ≤ 6 }
    ensures { OnOk result (text.new.items ≡ text.old.items ++ texts.head_line word.now address number) }
{
    let mut line = [0; LINE];
    let end = put_end(&mut line);
    let number = put_number(&mut line, number, end);
    let address = match address {
        Some(address) => put_address(&mut line, &address, number),
        None => number,
    };
    let start = put_word(&mut line, word, address);
    push_from(text, &line, start)
}

/// Writes what stands in a line from a place on.
pub(crate) fn push_from(
    text: &mut Vec<u8>,
    line: &[u8; LINE],
    start: usize,
) -> Result<(), AllocError>
    requires { start ≤ 768 }
    ensures { OnOk result (text.new.items ≡ text.old.items ++ drop start line.now) }
{
    text.extend_from_slice(&line[start..])
}

/// Puts the end of a line at the end of the array.
pub(crate) fn put_end(line: &mut [u8; LINE]) -> usize
    ensures start { result ≡ 767 }
    ensures written { drop result line.new ≡ 10 ∷ [] }
{
    put_word(line, b"\n", LINE)
}

/// Writes what stands before an entry's reply.
fn push_front(text: &mut Vec<u8>, entry: &Entry) -> Result<(), AllocError>
    ensures { OnOk result (text.new.items ≡ text.old.items ++ texts.entry_front entry.now) }
{
    let mut line = [0; LINE];
    let start = put_front(&mut line, entry, LINE);
    push_from(text, &line, start)
}

/// Puts what stands before an entry's reply in front of a place, and returns where it starts.
fn put_front(line: &mut [u8; LINE], entry: &Entry, end: usize) -> usize
    requires { (47 ≤ end) × (end ≤ 768) }
    ensures start { (result ≤ end) × (end ≤ result + 47) }
    ensures written { drop result line.new ≡ texts.entry_front entry.now ++ drop end line.old }
{
    let lane = put_two(line, entry.lane as u64, entry.row as u64, end);
    put_word(line, b"entry", lane)
}

/// Puts the movements of an entry in front of a place, and returns where they start.
fn put_moves(line: &mut [u8; LINE], moves: &[Option<Movement>; 4], end: usize) -> usize
    requires { (464 ≤ end) × (end ≤ 768) }
    ensures start { (result ≤ end) × (end ≤ result + 464) }
    ensures written { drop result line.new ≡ flat_map texts.move_text moves.now ++ drop end line.old }
{
    let [first, second, third, fourth] = moves;
    let fourth = put_move(line, fourth, end);
    let third = put_move(line, third, fourth);
    let second = put_move(line, second, third);
    put_move(line, first, second)
}

/// Puts a space and a movement in front of a place, or nothing.
fn put_move(line: &mut [u8; LINE], movement: &Option<Movement>, end: usize) -> usize
    requires { (116 ≤ end) × (end ≤ 768) }
    ensures start { (result ≤ end) × (end ≤ result + 116) }
    ensures written { drop result line.new ≡ texts.move_text movement.now ++ drop end line.old }
{
    match movement {
        Some(movement) => put_movement(line, movement, end),
        None => end,
    }
}

/// Puts a space and a movement in front of a place.
fn put_movement(line: &mut [u8; LINE], movement: &Movement, end: usize) -> usize
    requires { (116 ≤ end) × (end ≤ 768) }
    ensures start { (result ≤ end) × (end ≤ result + 116) }
    ensures written { drop result line.new ≡ texts.move_text (Some movement.now) ++ drop end line.old }
{
    let moved = put_moved(line, movement.kind, movement.amount, movement.before, end);
    put_address(line, &movement.wallet, moved)
}

/// Puts what was moved in front of a place: the kind, the amount, and the balance before it.
fn put_moved(line: &mut [u8; LINE], kind: MoveKind, amount: u64, before: u64, end: usize) -> usize
    requires { (49 ≤ end) × (end ≤ 768) }
    ensures start { (result ≤ end) × (end ≤ result + 49) }
    ensures written { drop result line.new ≡ spaced (kind_text kind) ++ (spaced (decimal amount)
        ++ (spaced (decimal before) ++ drop end line.old)) }
{
    let amount = put_two(line, amount, before, end);
    put_kind(line, kind, amount)
}

/// Puts a space and a reply that is no refusal in front of a place.
fn put_reply(line: &mut [u8; LINE], reply: Reply, end: usize) -> usize
    requires room { (180 ≤ end) × (end ≤ 768) }
    requires done { is_refusal reply ≡ false }
    ensures start { (result ≤ end) × (end ≤ result + 180) }
    ensures written { drop result line.new ≡ spaced (reply_text reply) ++ drop end line.old }
{
    match reply {
        Reply::Ordered {
            id,
            slot,
            lots,
            pc,
            fee,
            rested,
        } => {
            let fee = put_two(line, fee, rested, end);
            let lots = put_two(line, lots, pc, fee);
            let slot = put_number(line, slot as u64, lots);
            let id = put_wide(line, id, slot);
            put_word(line, b" ok order", id)
        }
        Reply::Took { lots, pc, fee } => put_three(line, b" ok take", lots, pc, fee, end),
        Reply::Cancelled(count) => put_told(line, b" ok cancelled", count as u64, end),
        Reply::Consumed(count) => put_told(line, b" ok consumed", count as u64, end),
        Reply::Settled { coin, pc, referrer } => {
            put_three(line, b" ok settled", coin, pc, referrer, end)
        }
        Reply::Done => put_word(line, b" ok done", end),
        Reply::Swept(pc) => put_told(line, b" ok swept", pc, end),
        // By the condition it is none.
        Reply::Refused(_) => unreachable!(),
    }
}

/// Puts a word, and three numbers after it, in front of a place.
fn put_three(
    line: &mut [u8; LINE],
    word: &[u8],
    first: u64,
    second: u64,
    third: u64,
    end: usize,
) -> usize
    requires { (80 ≤ end) × (end ≤ 768) × (length word.now ≤ 13) }
    ensures start { (result ≤ end) × (end ≤ result + 80) }
    ensures written { drop result line.new ≡ word.now ++ (spaced (decimal first) ++ (spaced (decimal second)
        ++ (spaced (decimal third) ++ drop end line.old))) }
{
    let second = put_two(line, second, third, end);
    put_told(line, word, first, second)
}

/// Puts a word, a space and a number in front of a place.
pub(crate) fn put_told(line: &mut [u8; LINE], word: &[u8], number: u64, end: usize) -> usize
    requires { (38 ≤ end) × (end ≤ 768) × (length word.now ≤ 13) }
    ensures start { (result ≤ end) × (end ≤ result + 38) }
    ensures written { drop result line.new ≡ word.now ++ (spaced (decimal number) ++ drop end line.old) }
{
    let number = put_number(line, number, end);
    put_word(line, word, number)
}

/// A space and a refusal.
fn push_refusal(text: &mut Vec<u8>, why: Refusal) -> Result<(), AllocError>
    ensures { OnOk result (text.new.items ≡ text.old.items ++ spaced (refusal_text why)) }
{
    let mut told = String::new(*text.allocator());
    write!(told, " {why}")?;
    text.extend_from_slice(told.as_bytes())
}

/// Puts a word in front of a place, and returns where it starts.
pub(crate) fn put_word(line: &mut [u8; LINE], word: &[u8], end: usize) -> usize
    requires { (length word.now ≤ end) × (end ≤ 768) }
    ensures start { result + length word.now ≡ end }
    ensures written { drop result line.new ≡ word.now ++ drop end line.old }
{
    let start = end - word.len();
    line[start..end].copy_from_slice(word);
    start
}

/// Puts a space and the word of a kind of movement in front of a place.
fn put_kind(line: &mut [u8; LINE], kind: MoveKind, end: usize) -> usize
    requires { (7 ≤ end) × (end ≤ 768) }
    ensures start { (result ≤ end) × (end ≤ result + 7) }
    ensures written { drop result line.new ≡ spaced (kind_text kind) ++ drop end line.old }
{
    match kind {
        MoveKind::Probe => put_word(line, b" probe", end),
        MoveKind::Debit => put_word(line, b" debit", end),
        MoveKind::Credit => put_word(line, b" credit", end),
    }
}

/// Puts a space and an address in front of a place: nearly all are labels.
#[tactic(auto, unfolding(dex_types::specs::Text::address_text))]
fn put_address(line: &mut [u8; LINE], address: &Address, end: usize) -> usize
    requires { (67 ≤ end) × (end ≤ 768) }
    ensures start { (result ≤ end) × (end ≤ result + 67) }
    ensures written { drop result line.new ≡ spaced (address_text address.now) ++ drop end line.old }
{
    match address.label() {
        Some(label) => put_spaced(line, label, end),
        None => put_spaced(line, &address.prefixed_digits(), end),
    }
}

/// Puts a space and a word in front of a place.
fn put_spaced(line: &mut [u8; LINE], word: &[u8], end: usize) -> usize
    requires { (length word.now < end) × (end ≤ 768) }
    ensures start { result + length word.now + 1 ≡ end }
    ensures written { drop result line.new ≡ spaced word.now ++ drop end line.old }
{
    let start = put_word(line, word, end);
    put_word(line, b" ", start)
}

/// Puts a space and a number, and then another one, in front of a place.
pub(crate) fn put_two(line: &mut [u8; LINE], first: u64, second: u64, end: usize) -> usize
    requires { (42 ≤ end) × (end ≤ 768) }
    ensures start { (result ≤ end) × (end ≤ result + 42) }
    ensures written { drop result line.new
        ≡ spaced (decimal first) ++ (spaced (decimal second) ++ drop end line.old) }
{
    let second = put_number(line, second, end);
    put_number(line, first, second)
}

/// Puts a space and a number in front of a place, and returns where the space stands.
pub(crate) fn put_number(line: &mut [u8; LINE], number: u64, end: usize) -> usize
    requires { (21 ≤ end) × (end ≤ 768) }
    ensures start { (result ≤ end) × (end ≤ result + 21) }
    ensures written { drop result line.new ≡ spaced (decimal number) ++ drop end line.old }
{
    let start = write_digits(number, line, end) - 1;
    line[start] = b' ';
    start
}

/// Puts a space and a number of 128 bits in front of a place.
fn put_wide(line: &mut [u8; LINE], number: u128, end: usize) -> usize
    requires { (40 ≤ end) × (end ≤ 768) }
    ensures start { (result ≤ end) × (end ≤ result + 40) }
    ensures written { drop result line.new ≡ spaced (decimal number) ++ drop end line.old }
{
    let mut buffer = Buffer::new();
    put_spaced(line, buffer.format(number).as_bytes(), end)
}
