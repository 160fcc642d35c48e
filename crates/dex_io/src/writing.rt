//! What takes bytes, and a call that writes a whole text.

ghost use Rattle.std.specs.Prelude.{◌≡◌, ◌<◌, ◌≤◌, Option, List, ℕ, length, take, IfOk, OnOk, IfErr, OnErr, is_some};
ghost use Rattle.std.specs.Io.KnownBytes.{append_known};
ghost use Rattle.dex_io.specs.Faults.{Rose};

use crate::{Failed, WriteStop};

/// What takes bytes. A write that fails takes none of its piece. A sink that would take nothing of a piece that is
/// not empty answers `Failed`.
pub trait Sink {
    /// The bytes that were taken so far, where the sink tells them.
    ghost taken: { Self → Option (List ℕ) };

    /// How often a write has failed.
    ghost faults: { Self → ℕ };

    /// Takes bytes from the front of the piece, and answers how many: at least 1 of a piece that is not empty.
    fn write(&mut self, piece: &[u8]) -> Result<usize, Failed>
        ensures within { IfOk result (λ n. n ≤ length piece.now) }
        ensures progress { IfOk result (λ n. 0 < length piece.now → 0 < n) }
        ensures bytes { IfOk result (λ n. taken self.new ≡ append_known (taken self.old) (take n piece.now)) }

        ensures failed { OnErr result (Rose (faults self.old) (faults self.new)) }
        ensures unchanged { OnErr result (taken self.new ≡ taken self.old) }

        ensures later { faults self.old ≤ faults self.new }
        ensures tells { is_some (taken self.new) ≡ is_some (taken self.old) };
}

/// Writes the whole text, or stops at the first write that fails. It takes no memory.
pub fn write_all<K: Sink>(sink: &mut K, text: &[u8]) -> Result<(), WriteStop>
    ensures ok { OnOk result (K.taken sink.new ≡ append_known (K.taken sink.old) text.now) }

    ensures stopped { IfErr result (λ stop. K.taken sink.new
        ≡ append_known (K.taken sink.old) (take stop.sent text.now)) }
    ensures sent { IfErr result (λ stop. stop.sent < length text.now) }
    ensures failed { OnErr result (Rose (K.faults sink.old) (K.faults sink.new)) }

    ensures later { K.faults sink.old ≤ K.faults sink.new }
    ensures tells { is_some (K.taken sink.new) ≡ is_some (K.taken sink.old) }
{
    let mut sent = 0;
    while sent < text.len() {
        match sink.write(&text[sent..]) {
            Ok(count) => sent += count,
            Err(Failed) => return Err(WriteStop { sent }),
        }
    }
    Ok(())
}
