//! Saying all of a text, and hearing more.

ghost use Rattle.std.specs.Prelude.{◌≡◌, ◌≤◌, [], ℕ, IfErr, IfOk, List, OnErr, OnOk};
ghost use Rattle.dex_io.specs.Faults.{Rose};
ghost use Rattle.dex_desk.specs.Serving.{AreLater, HeardInVain, StoppedFor, TellsEar};
ghost use Rattle.dex_desk.specs.Serving as spec;
ghost use Rattle.dex_desk.specs.Talks.{Session, Talked, talk};

use crate::desk::Desk;
use crate::ends::Stop;
use crate::inbox::Inbox;
use dex_io::Failed;
use dex_types::NoMemory;

/// How many bytes are heard at a time.
pub const CHUNK: usize = 65_536;

/// What came of hearing.
#[derive(Clone, Copy, Debug, PartialEq, Eq)]
pub enum Ear {
    /// There is more.
    More,
    /// The input has ended.
    Ended,
    /// The read failed.
    Failed,
}

/// Hears more, and puts it behind what was heard.
pub fn hear_more<D: Desk>(
    desk: &mut D,
    inbox: &mut Inbox,
    chunk: &mut [u8; CHUNK],
) -> Result<Ear, NoMemory>
    ensures heard { IfOk result (λ ear. TellsEar ear (D.turns desk.old) (D.turns desk.new) inbox.old inbox.new) }
    ensures vain { OnErr result (HeardInVain (D.turns desk.old) (D.turns desk.new)) }
    ensures failed { IfOk result (λ ear. spec.EarFor ear (D.deaf desk.old) (D.deaf desk.new)) }
    ensures later { AreLater (D.deaf desk.old) (D.mute desk.old) (D.deaf desk.new) (D.mute desk.new) }
{
    let Ok(count) = desk.hear(chunk) else {
        return Ok(Ear::Failed);
    };
    if count == 0 {
        return Ok(Ear::Ended);
    }
    match inbox.add(&chunk[..count]) {
        Ok(()) => Ok(Ear::More),
        Err(_) => Err(NoMemory),
    }
}

/// Says what is in a text, and empties it.
pub fn say_text<D: Desk>(desk: &mut D, text: &mut Vec<u8>) -> Result<(), Stop>
    ensures said { OnOk result ((session : Session)
        → Talked (D.turns desk.old) (D.turns desk.new) (talk session text.old.items) (talk session [])) }
    ensures empty { OnOk result (text.new.items ≡ []) }
    ensures stopped { IfErr result (λ why. (session : Session)
        → spec.Stopped why (D.turns desk.old) (D.turns desk.new) (talk session text.old.items)) }
    ensures failed { IfErr result (λ why. StoppedFor why (D.mute desk.old) (D.mute desk.new)) }
    ensures later { D.mute desk.old ≤ D.mute desk.new }
    ensures apart { D.deaf desk.new ≡ D.deaf desk.old }
{
    match say_all(desk, text) {
        Ok(()) => {
            text.clear();
            Ok(())
        }
        Err(Failed) => Err(Stop::WriteFault),
    }
}

/// Says the whole text, or stops at the first call that fails.
pub fn say_all<D: Desk>(desk: &mut D, text: &[u8]) -> Result<(), Failed>
    ensures said { OnOk result ((session : Session)
        → Talked (D.turns desk.old) (D.turns desk.new) (talk session text.now) (talk session [])) }
    ensures front { OnErr result ((session : Session) → (rest : List ℕ)
        × Talked (D.turns desk.old) (D.turns desk.new) (talk session text.now) (talk session rest)) }
    ensures failed { OnErr result (Rose (D.mute desk.old) (D.mute desk.new)) }
    ensures later { D.mute desk.old ≤ D.mute desk.new }
    ensures apart { D.deaf desk.new ≡ D.deaf desk.old }
{
    let mut sent = 0;
    while sent < text.len() {
        match desk.say(text.split_at(sent).1) {
            Ok(count) => sent += count,
            Err(Failed) => return Err(Failed),
        }
    }
    Ok(())
}
