//! Where a session's rows come from and where its answers go. Reads and writes stand in one order.

ghost use Rattle.std.specs.Prelude.{◌≡◌, ◌<◌, ◌≤◌, Option, List, ℕ, length, take, IfOk, OnErr, None, is_some};
ghost use Rattle.dex_io.specs.Faults.{Rose};
ghost use Rattle.dex_desk.specs.Turns.{Turn, and_then};
ghost use Rattle.dex_desk.specs.Turns.Turn.{Heard, Said};

use dex_io::{Failed, Sink, Source, StdSink, StdSource};

/// What gives bytes and takes bytes. What it tells is one list of both, in the order of the calls: so a contract can
/// say that an answer stands before the next row was heard.
pub trait Desk {
    /// What was heard and said so far, where the desk tells it.
    ghost turns: { Self → Option (List Turn) };

    /// How often hearing has failed.
    ghost deaf: { Self → ℕ };

    /// How often saying has failed.
    ghost mute: { Self → ℕ };

    /// Puts the next bytes at the front of the buffer, and answers how many: 0 only at the end of input. The buffer is
    /// not empty, so that no bytes heard is the end.
    fn hear(&mut self, buf: &mut [u8]) -> Result<usize, Failed>
        requires room { 0 < length buf.old }
        ensures within { IfOk result (λ n. n ≤ length buf.old) }
        ensures heard { IfOk result (λ n. turns self.new ≡ and_then (turns self.old) (Heard (take n buf.new))) }
        ensures failed { OnErr result (Rose (deaf self.old) (deaf self.new)) }
        ensures unchanged { OnErr result (turns self.new ≡ turns self.old) }
        ensures tells { is_some (turns self.new) ≡ is_some (turns self.old) }
        ensures later { deaf self.old ≤ deaf self.new }
        ensures apart { mute self.new ≡ mute self.old };

    /// Takes bytes from the front of the piece, and answers how many: at least 1 of a piece that is not empty.
    fn say(&mut self, piece: &[u8]) -> Result<usize, Failed>
        ensures within { IfOk result (λ n. n ≤ length piece.now) }
        ensures progress { IfOk result (λ n. 0 < length piece.now → 0 < n) }
        ensures said { IfOk result (λ n. turns self.new ≡ and_then (turns self.old) (Said (take n piece.now))) }
        ensures failed { OnErr result (Rose (mute self.old) (mute self.new)) }
        ensures unchanged { OnErr result (turns self.new ≡ turns self.old) }
        ensures tells { is_some (turns self.new) ≡ is_some (turns self.old) }
        ensures later { mute self.old ≤ mute self.new }
        ensures apart { deaf self.new ≡ deaf self.old };
}

/// Standard input and standard output. They tell nothing but how many calls failed.
#[derive(Drop)]
pub struct StdDesk<'a, R: Input + Print> {
    source: StdSource<R>,
    sink: StdSink<'a, R>,
}

impl<'a, R: Input + Print> StdDesk<'a, R> {
    /// Those of this runtime.
    pub fn new(rt: &'a R) -> StdDesk<'a, R> {
        StdDesk {
            source: StdSource::new(rt),
            sink: StdSink::new(rt),
        }
    }
}

impl<'a, R: Input + Print> Desk for StdDesk<'a, R> {
    ghost turns = { λ _. None };

    ghost deaf = { λ s. s.source };

    ghost mute = { λ s. s.sink };

    fn hear(&mut self, buf: &mut [u8]) -> Result<usize, Failed> {
        self.source.read(buf)
    }

    fn say(&mut self, piece: &[u8]) -> Result<usize, Failed> {
        self.sink.write(piece)
    }
}
