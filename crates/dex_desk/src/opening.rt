//! The set-ups of a session, up to the one that opens a desk.

ghost use Rattle.std.specs.Prelude.{◌≡◌, ◌+◌, ◌<◌, ◌++◌, [], IfErr, IfOk, OnOk, drop, length, take};
ghost use Rattle.std.specs.List.{flat_map};
ghost use Rattle.dex_dump.specs.Pieces.{piece_text, zeros_text};
ghost use Rattle.dex_desk.specs.Serving as spec;
ghost use Rattle.dex_desk.specs.Serving.{AreLater, MayStop, StoppedFor};
ghost use Rattle.dex_desk.specs.Talks as talks;
ghost use Rattle.dex_desk.specs.Talks.{HasNoEnd, IsCut, talk};
ghost use Rattle.dex_desk.specs.Talks.Session.{Sets};

use crate::block::Block;
use crate::desk::Desk;
use crate::ends::{Over, Stop};
use crate::inbox::Inbox;
use crate::set_up::{Opened, open_desk};
use crate::speaking::{CHUNK, Ear, hear_more, say_text};
use dex_dump::Piece;
use dex_report::write_head;
use dex_types::{NoMemory, WIDE};
use std::alloc::Global;

/// What set-ups come to.
#[derive(Drop)]
pub enum SetUp {
    /// A desk is open.
    Open(Block),
    /// The session is over before.
    Over(Over),
}

/// Hears set-ups until one opens a desk, or the session is over.
pub fn set_up<D: Desk>(
    alloc: Global,
    desk: &mut D,
    inbox: &mut Inbox,
    chunk: &mut [u8; CHUNK],
    text: &mut Vec<u8>,
) -> Result<SetUp, Stop>
    requires inbox { inbox.old ≡ [] }
    requires text { text.old.items ≡ [] }
    ensures found { IfOk result (λ found. spec.TellsSetUp found (D.turns desk.old) (D.turns desk.new) talks.first
        inbox.new text.new.items) }
    ensures stopped { MayStop result (D.turns desk.old) (D.turns desk.new) talks.first }
    ensures deaf { IfOk result (λ found. spec.SetUpFor found (D.deaf desk.old) (D.deaf desk.new)) }
    ensures mute { IfErr result (λ why. StoppedFor why (D.mute desk.old) (D.mute desk.new)) }
    ensures later { AreLater (D.deaf desk.old) (D.mute desk.old) (D.deaf desk.new) (D.mute desk.new) }
{
    let mut kept = Vec::new(alloc);
    'turns: for _ in 0..u64::MAX {
        match hear_set_up(alloc, desk, &mut kept, inbox, chunk, text) {
            Ok(Some(found)) => return Ok(found),
            Ok(None) => {}
            Err(why) => return Err(why),
        }
    }
    Err(Stop::NoMemory)
}

/// Takes the set-ups that were heard, says what they are answered, and hears more where none opens a desk.
fn hear_set_up<D: Desk>(
    alloc: Global,
    desk: &mut D,
    kept: &mut Vec<u8>,
    inbox: &mut Inbox,
    chunk: &mut [u8; CHUNK],
    text: &mut Vec<u8>,
) -> Result<Option<SetUp>, Stop>
    requires text { text.old.items ≡ [] }
    ensures found { IfOk result (λ found. spec.TellsWaiting found (D.turns desk.old) (D.turns desk.new)
        (talk (Sets kept.old.items inbox.old) []) kept.new.items inbox.new text.new.items) }
    ensures stopped { MayStop result (D.turns desk.old) (D.turns desk.new) (talk (Sets kept.old.items inbox.old) []) }
    ensures deaf { IfOk result (λ found. spec.WaitingFor found (D.deaf desk.old) (D.deaf desk.new)) }
    ensures mute { IfErr result (λ why. StoppedFor why (D.mute desk.old) (D.mute desk.new)) }
    ensures later { AreLater (D.deaf desk.old) (D.mute desk.old) (D.deaf desk.new) (D.mute desk.new) }
{
    let found = match take_set_ups(alloc, kept, inbox, text) {
        Ok(found) => found,
        Err(NoMemory) => return Err(Stop::NoMemory),
    };
    match say_text(desk, text) {
        Ok(()) => go_on(desk, found, kept, inbox, chunk, text),
        Err(why) => Err(why),
    }
}

/// Goes on with the desk that was opened, or hears more where none was.
fn go_on<D: Desk>(
    desk: &mut D,
    found: Option<Block>,
    kept: &mut Vec<u8>,
    inbox: &mut Inbox,
    chunk: &mut [u8; CHUNK],
    text: &mut Vec<u8>,
) -> Result<Option<SetUp>, Stop>
    requires text { text.old.items ≡ [] }
    requires listening { spec.IsWaiting found inbox.old }
    ensures found { IfOk result (λ next. spec.TellsWaiting next (D.turns desk.old) (D.turns desk.new)
        (talk (spec.session_of found kept.old.items inbox.old) []) kept.new.items inbox.new text.new.items) }
    ensures stopped { MayStop result (D.turns desk.old) (D.turns desk.new)
        (talk (spec.session_of found kept.old.items inbox.old) []) }
    ensures deaf { IfOk result (λ next. spec.WaitingFor next (D.deaf desk.old) (D.deaf desk.new)) }
    ensures mute { IfErr result (λ why. StoppedFor why (D.mute desk.old) (D.mute desk.new)) }
    ensures later { AreLater (D.deaf desk.old) (D.mute desk.old) (D.deaf desk.new) (D.mute desk.new) }
{
    match found {
        Some(block) => Ok(Some(SetUp::Open(block))),
        None => listen(desk, kept, inbox, chunk, text),
    }
}

/// Hears more of a set-up, of which no whole line is left, unless it is too long.
fn listen<D: Desk>(
    desk: &mut D,
    kept: &mut Vec<u8>,
    inbox: &mut Inbox,
    chunk: &mut [u8; CHUNK],
    text: &mut Vec<u8>,
) -> Result<Option<SetUp>, Stop>
    requires text { text.old.items ≡ [] }
    requires listening { HasNoEnd inbox.old }
    ensures found { IfOk result (λ found. spec.TellsWaiting found (D.turns desk.old) (D.turns desk.new)
        (talk (Sets kept.old.items inbox.old) []) kept.new.items inbox.new text.new.items) }
    ensures stopped { MayStop result (D.turns desk.old) (D.turns desk.new) (talk (Sets kept.old.items inbox.old) []) }
    ensures deaf { IfOk result (λ found. spec.WaitingFor found (D.deaf desk.old) (D.deaf desk.new)) }
    ensures mute { IfErr result (λ why. StoppedFor why (D.mute desk.old) (D.mute desk.new)) }
    ensures later { AreLater (D.deaf desk.old) (D.mute desk.old) (D.deaf desk.new) (D.mute desk.new) }
{
    inbox.close_up();
    if WIDE.bytes < kept.len().saturating_add(inbox.len()) {
        return over(text, Over::TooLong);
    }
    match hear_more(desk, inbox, chunk) {
        Ok(Ear::More) => Ok(None),
        Ok(Ear::Ended) => Ok(Some(SetUp::Over(Over::Input))),
        Ok(Ear::Failed) => over(text, Over::ReadFault),
        Err(NoMemory) => Err(Stop::NoMemory),
    }
}

/// The session is over, with its last line.
fn over(text: &mut Vec<u8>, why: Over) -> Result<Option<SetUp>, Stop>
    ensures { spec.TellsOver result why text.old.items text.new.items }
{
    match append(text, why.last_line()) {
        Ok(()) => Ok(Some(SetUp::Over(why))),
        Err(NoMemory) => Err(Stop::NoMemory),
    }
}

/// Takes lines of set-ups, until one opens a desk or no whole line is left.
fn take_set_ups(
    alloc: Global,
    kept: &mut Vec<u8>,
    inbox: &mut Inbox,
    text: &mut Vec<u8>,
) -> Result<Option<Block>, NoMemory>
    ensures { IfOk result (λ found. spec.HaveSetUp found (talk (Sets kept.old.items inbox.old) text.old.items)
        kept.new.items inbox.new text.new.items) }
{
    'lines: while let Some(size) = inbox.line_end() {
        let found = take_set_up_line(alloc, size, kept, inbox, text)?;
        if found.is_some() {
            return Ok(found);
        }
    }
    Ok(None)
}

/// Takes the first line, of so many bytes.
fn take_set_up_line(
    alloc: Global,
    size: usize,
    kept: &mut Vec<u8>,
    inbox: &mut Inbox,
    text: &mut Vec<u8>,
) -> Result<Option<Block>, NoMemory>
    requires cut { IsCut inbox.old (take size inbox.old) (drop (size + 1) inbox.old) }
    requires within { size < length inbox.old }
    ensures passed { OnOk result (inbox.new ≡ drop (size + 1) inbox.old) }
    ensures done { IfOk result (λ found. spec.HasDone found (talk (Sets kept.old.items inbox.old) text.old.items)
        kept.new.items inbox.new text.new.items) }
{
    if is_opening(&inbox.bytes()[..size]) {
        let found = open_or_refuse(alloc, kept, text)?;
        kept.clear();
        inbox.pass(size + 1);
        Ok(found)
    } else {
        append(kept, &inbox.bytes()[..size + 1])?;
        inbox.pass(size + 1);
        Ok(None)
    }
}

/// Opens a desk over a set-up, and says so; or says why it is none.
fn open_or_refuse(alloc: Global, kept: &[u8], text: &mut Vec<u8>) -> Result<Option<Block>, NoMemory>
    ensures { IfOk result (λ found. spec.OpensOrRefuses found kept.now text.old.items text.new.items) }
{
    match open_desk(alloc, kept)? {
        Opened::Desk(block) => match write_head(text, b"open", None, block.number() as u64) {
            Ok(()) => Ok(Some(block)),
            Err(_) => Err(NoMemory),
        },
        Opened::Refused(told) => {
            append_pieces(text, &told.pieces)?;
            Ok(None)
        }
    }
}

/// Whether a line opens a desk.
fn is_opening(line: &[u8]) -> bool
    ensures { result ≡ talks.is_opening line.now }
{
    line == b"open".as_slice() || line == b"open\r".as_slice()
}

/// Puts bytes behind a text.
pub fn append(text: &mut Vec<u8>, more: &[u8]) -> Result<(), NoMemory>
    ensures { OnOk result (text.new.items ≡ text.old.items ++ more.now) }
{
    match text.extend_from_slice(more) {
        Ok(()) => Ok(()),
        Err(_) => Err(NoMemory),
    }
}

/// The text of a piece of zeros. It stands in the program itself.
const ZEROS: [u8; 65_536] = [b'A'; 65_536];

/// Puts a text in pieces behind another.
#[tactic(auto, unfolding(dex_dump::specs::Pieces::zeros_text))]
fn append_pieces(text: &mut Vec<u8>, pieces: &[Piece]) -> Result<(), NoMemory>
    ensures { OnOk result (text.new.items ≡ text.old.items ++ flat_map piece_text pieces.now) }
{
    for piece in pieces {
        append(text, bytes_of(piece, &ZEROS))?;
    }
    Ok(())
}

/// The bytes of a piece, where these are those of a piece of zeros.
fn bytes_of<'a>(piece: &'a Piece, zeros: &'a [u8]) -> &'a [u8]
    requires { zeros.now ≡ zeros_text }
    ensures { result.now ≡ piece_text piece.now }
{
    match piece {
        Piece::Bytes(bytes) => bytes,
        Piece::Zeros => zeros,
    }
}
