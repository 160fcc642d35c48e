//! A session from its first byte to its last.

ghost use Rattle.std.specs.Prelude.{◌≡◌, ◌≤◌, [], IfErr, IfOk, IsTrue};
ghost use Rattle.dex_answers.specs.declared.status.Status.TheVariants as status;
ghost use Rattle.dex_io.specs.Faults.{Rose};
ghost use Rattle.dex_desk.specs.Serving as spec;
ghost use Rattle.dex_desk.specs.Serving.{AreLater, MayEnd, MayStop, StoppedFor};
ghost use Rattle.dex_desk.specs.Talks as talks;
ghost use Rattle.dex_desk.specs.Talks.{IsListening, IsServed, Talked, talk};
ghost use Rattle.dex_desk.specs.Talks.Session.{Ended, Serves};

use crate::answering::{Buffers, answer_dump, take_line, take_lines};
use crate::block::Block;
use crate::desk::Desk;
use crate::ends::{Over, Stop};
use crate::inbox::Inbox;
use crate::opening::{SetUp, append, set_up};
use crate::speaking::{CHUNK, Ear, hear_more, say_all, say_text};
use dex_answers::Status;
use dex_io::Failed;
use dex_report::LINE;
use dex_statement::InstructionWords;
use dex_types::{NoMemory, STANDARD};
use std::alloc::Global;

/// Serves a session. What it hears and says is a talk, which ends as the status says. Where the desk tells its turns,
/// at each moment those that it has told are a front of such a talk.
pub fn serve<D: Desk>(alloc: Global, desk: &mut D) -> Status
    ensures talk { IsServed result (D.turns desk.old) (D.turns desk.new) }
    ensures deaf { result ≡ status.ReadFault → Rose (D.deaf desk.old) (D.deaf desk.new) }
    ensures mute { result ≡ status.WriteFault → Rose (D.mute desk.old) (D.mute desk.new) }
{
    match session(alloc, desk) {
        Ok(why) => why.status(),
        Err(Stop::WriteFault) => Status::WriteFault,
        Err(Stop::NoMemory) => match say_all(desk, Over::NoMemory.last_line()) {
            Ok(()) => Status::NoMemory,
            Err(Failed) => Status::WriteFault,
        },
    }
}

/// Serves a session, and answers the number of its status, with which the process ends.
pub fn serve_process<D: Desk>(alloc: Global, desk: &mut D) -> u8
    ensures { spec.EndsProcess result (D.turns desk.old) (D.turns desk.new)
        (D.deaf desk.old) (D.deaf desk.new) (D.mute desk.old) (D.mute desk.new) }
{
    serve(alloc, desk).code()
}

/// All of a session but the line that says that memory was wanting.
fn session<D: Desk>(alloc: Global, desk: &mut D) -> Result<Over, Stop>
    ensures talk { MayEnd result (D.turns desk.old) (D.turns desk.new) talks.first }
    ensures stopped { MayStop result (D.turns desk.old) (D.turns desk.new) talks.first }
    ensures deaf { IfOk result (λ why. spec.EndedFor why (D.deaf desk.old) (D.deaf desk.new)) }
    ensures mute { IfErr result (λ why. StoppedFor why (D.mute desk.old) (D.mute desk.new)) }
    ensures later { D.mute desk.old ≤ D.mute desk.new }
{
    let mut buffers = Buffers {
        words: InstructionWords::none(alloc),
        line: [0; LINE],
        text: Vec::new(alloc),
    };
    let mut chunk = [0; CHUNK];
    let mut inbox = Inbox::new(alloc);
    converse(alloc, desk, &mut inbox, &mut chunk, &mut buffers)
}

/// A session in these buffers: set-ups, and rows where a desk is opened.
fn converse<D: Desk>(
    alloc: Global,
    desk: &mut D,
    inbox: &mut Inbox,
    chunk: &mut [u8; CHUNK],
    buffers: &mut Buffers,
) -> Result<Over, Stop>
    requires inbox { inbox.old ≡ [] }
    requires text { buffers.old.text.items ≡ [] }
    ensures talk { MayEnd result (D.turns desk.old) (D.turns desk.new) talks.first }
    ensures stopped { MayStop result (D.turns desk.old) (D.turns desk.new) talks.first }
    ensures deaf { IfOk result (λ why. spec.EndedFor why (D.deaf desk.old) (D.deaf desk.new)) }
    ensures mute { IfErr result (λ why. StoppedFor why (D.mute desk.old) (D.mute desk.new)) }
    ensures later { D.mute desk.old ≤ D.mute desk.new }
{
    match set_up(alloc, desk, inbox, chunk, &mut buffers.text) {
        Ok(SetUp::Open(block)) => converse_on(alloc, desk, inbox, chunk, buffers, block),
        Ok(SetUp::Over(why)) => say_rest(desk, &mut buffers.text, why),
        Err(why) => Err(why),
    }
}

/// The rest of a session, over a desk that is open.
fn converse_on<D: Desk>(
    alloc: Global,
    desk: &mut D,
    inbox: &mut Inbox,
    chunk: &mut [u8; CHUNK],
    buffers: &mut Buffers,
    block: Block,
) -> Result<Over, Stop>
    requires { buffers.old.text.items ≡ [] }
    ensures talk { MayEnd result (D.turns desk.old) (D.turns desk.new) (talk (Serves block inbox.old) []) }
    ensures stopped { MayStop result (D.turns desk.old) (D.turns desk.new) (talk (Serves block inbox.old) []) }
    ensures deaf { IfOk result (λ why. spec.EndedFor why (D.deaf desk.old) (D.deaf desk.new)) }
    ensures mute { IfErr result (λ why. StoppedFor why (D.mute desk.old) (D.mute desk.new)) }
    ensures later { D.mute desk.old ≤ D.mute desk.new }
{
    match serve_rows(alloc, desk, inbox, chunk, buffers, block) {
        Ok(why) => say_rest(desk, &mut buffers.text, why),
        Err(why) => Err(why),
    }
}

/// Says what is left where a session is over.
fn say_rest<D: Desk>(desk: &mut D, text: &mut Vec<u8>, why: Over) -> Result<Over, Stop>
    ensures said { IfOk result (λ over. (over ≡ why)
        × Talked (D.turns desk.old) (D.turns desk.new) (talk (Ended why) text.old.items) (talk (Ended why) [])) }
    ensures stopped { MayStop result (D.turns desk.old) (D.turns desk.new) (talk (Ended why) text.old.items) }
    ensures mute { IfErr result (λ stop. StoppedFor stop (D.mute desk.old) (D.mute desk.new)) }
    ensures later { D.mute desk.old ≤ D.mute desk.new }
    ensures apart { D.deaf desk.new ≡ D.deaf desk.old }
{
    match say_text(desk, text) {
        Ok(()) => Ok(why),
        Err(stop) => Err(stop),
    }
}

/// Whether an open desk goes on.
#[derive(Drop)]
enum Goes {
    /// It goes on.
    On(Block),
    /// The session is over.
    Over(Over),
}

/// Answers rows until the session is over.
fn serve_rows<D: Desk>(
    alloc: Global,
    desk: &mut D,
    inbox: &mut Inbox,
    chunk: &mut [u8; CHUNK],
    buffers: &mut Buffers,
    block: Block,
) -> Result<Over, Stop>
    requires { buffers.old.text.items ≡ [] }
    ensures talk { IfOk result (λ why. Talked (D.turns desk.old) (D.turns desk.new) (talk (Serves block inbox.old) [])
        (talk (Ended why) buffers.new.text.items)) }
    ensures stopped { MayStop result (D.turns desk.old) (D.turns desk.new) (talk (Serves block inbox.old) []) }
    ensures deaf { IfOk result (λ why. spec.EndedFor why (D.deaf desk.old) (D.deaf desk.new)) }
    ensures mute { IfErr result (λ why. StoppedFor why (D.mute desk.old) (D.mute desk.new)) }
    ensures later { AreLater (D.deaf desk.old) (D.mute desk.old) (D.deaf desk.new) (D.mute desk.new) }
{
    let mut block = block;
    'turns: for _ in 0..u64::MAX {
        block = match answer_lines(alloc, desk, inbox, chunk, buffers, block) {
            Ok(Goes::On(block)) => block,
            Ok(Goes::Over(why)) => return Ok(why),
            Err(why) => return Err(why),
        };
    }
    Err(Stop::NoMemory)
}

/// Answers lines that were heard, so many as fill a write, and hears more where none is left.
fn answer_lines<D: Desk>(
    alloc: Global,
    desk: &mut D,
    inbox: &mut Inbox,
    chunk: &mut [u8; CHUNK],
    buffers: &mut Buffers,
    block: Block,
) -> Result<Goes, Stop>
    requires { buffers.old.text.items ≡ [] }
    ensures goes { IfOk result (λ goes. spec.TellsGoes goes (D.turns desk.old) (D.turns desk.new)
        (talk (Serves block inbox.old) []) inbox.new buffers.new.text.items) }
    ensures stopped { MayStop result (D.turns desk.old) (D.turns desk.new) (talk (Serves block inbox.old) []) }
    ensures deaf { IfOk result (λ goes. spec.GoesFor goes (D.deaf desk.old) (D.deaf desk.new)) }
    ensures mute { IfErr result (λ why. StoppedFor why (D.mute desk.old) (D.mute desk.new)) }
    ensures later { AreLater (D.deaf desk.old) (D.mute desk.old) (D.deaf desk.new) (D.mute desk.new) }
{
    let block = match take_lines(alloc, block, inbox, buffers) {
        Ok(block) => block,
        Err(NoMemory) => return Err(Stop::NoMemory),
    };
    match say_text(desk, &mut buffers.text) {
        Ok(()) => go_on(alloc, desk, inbox, chunk, buffers, block),
        Err(why) => Err(why),
    }
}

/// Hears more where no line is left and no row is to act.
fn go_on<D: Desk>(
    alloc: Global,
    desk: &mut D,
    inbox: &mut Inbox,
    chunk: &mut [u8; CHUNK],
    buffers: &mut Buffers,
    block: Block,
) -> Result<Goes, Stop>
    requires text { buffers.old.text.items ≡ [] }
    ensures goes { IfOk result (λ goes. spec.TellsGoes goes (D.turns desk.old) (D.turns desk.new)
        (talk (Serves block inbox.old) []) inbox.new buffers.new.text.items) }
    ensures stopped { MayStop result (D.turns desk.old) (D.turns desk.new) (talk (Serves block inbox.old) []) }
    ensures deaf { IfOk result (λ goes. spec.GoesFor goes (D.deaf desk.old) (D.deaf desk.new)) }
    ensures mute { IfErr result (λ why. StoppedFor why (D.mute desk.old) (D.mute desk.new)) }
    ensures later { AreLater (D.deaf desk.old) (D.mute desk.old) (D.deaf desk.new) (D.mute desk.new) }
{
    if is_listening(inbox, &block) {
        listen(alloc, desk, inbox, chunk, buffers, block)
    } else {
        Ok(Goes::On(block))
    }
}

/// Whether all that was heard is taken and has acted.
fn is_listening(inbox: &Inbox, block: &Block) -> bool
    ensures { IsTrue result → IsListening (Serves block.now inbox.now) }
{
    block.len() == 0 && inbox.line_end().is_none()
}

/// Hears more, where all that was heard is answered, unless the line of which no end was heard is too long.
fn listen<D: Desk>(
    alloc: Global,
    desk: &mut D,
    inbox: &mut Inbox,
    chunk: &mut [u8; CHUNK],
    buffers: &mut Buffers,
    block: Block,
) -> Result<Goes, Stop>
    requires text { buffers.old.text.items ≡ [] }
    requires listening { IsListening (Serves block inbox.old) }
    ensures goes { IfOk result (λ goes. spec.TellsGoes goes (D.turns desk.old) (D.turns desk.new)
        (talk (Serves block inbox.old) []) inbox.new buffers.new.text.items) }
    ensures stopped { MayStop result (D.turns desk.old) (D.turns desk.new) (talk (Serves block inbox.old) []) }
    ensures deaf { IfOk result (λ goes. spec.GoesFor goes (D.deaf desk.old) (D.deaf desk.new)) }
    ensures mute { IfErr result (λ why. StoppedFor why (D.mute desk.old) (D.mute desk.new)) }
    ensures later { AreLater (D.deaf desk.old) (D.mute desk.old) (D.deaf desk.new) (D.mute desk.new) }
{
    inbox.close_up();
    if STANDARD.bytes < inbox.len() {
        return cut_off(alloc, block, buffers, Over::TooLong);
    }
    match hear_more(desk, inbox, chunk) {
        Ok(Ear::More) => Ok(Goes::On(block)),
        Ok(Ear::Ended) => close(alloc, block, inbox.bytes(), buffers),
        Ok(Ear::Failed) => cut_off(alloc, block, buffers, Over::ReadFault),
        Err(NoMemory) => Err(Stop::NoMemory),
    }
}

/// Takes the last line, and writes the accounts.
fn close(alloc: Global, block: Block, line: &[u8], buffers: &mut Buffers) -> Result<Goes, Stop>
    ensures { spec.TellsClosed result block line.now buffers.old.text.items buffers.new.text.items }
{
    let Ok(block) = take_line(alloc, block, line, buffers) else {
        return Err(Stop::NoMemory);
    };
    match answer_dump(alloc, block, buffers) {
        Ok(_) => Ok(Goes::Over(Over::Input)),
        Err(NoMemory) => Err(Stop::NoMemory),
    }
}

/// Writes the accounts, and why the session is over before its input is.
fn cut_off(alloc: Global, block: Block, buffers: &mut Buffers, why: Over) -> Result<Goes, Stop>
    ensures { spec.TellsCutOff result why block buffers.old.text.items buffers.new.text.items }
{
    let Ok(_) = answer_dump(alloc, block, buffers) else {
        return Err(Stop::NoMemory);
    };
    match append(&mut buffers.text, why.last_line()) {
        Ok(()) => Ok(Goes::Over(why)),
        Err(NoMemory) => Err(Stop::NoMemory),
    }
}
