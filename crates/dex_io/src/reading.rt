//! What gives bytes, and a call that reads all of them.

ghost use Rattle.std.specs.Prelude.{◌≡◌, ◌↔◌, ◌+◌, ◌<◌, ◌≤◌, Option, List, ℕ, length, take, vec_len, Ok, IfOk, OnOk, OnErr, IfSome, IsErr, IsErrOf, is_some};
ghost use Rattle.std.specs.Io.KnownBytes.{IsAtEnd, prepend_known};
ghost use Rattle.dex_io.specs.Faults.{Rose};
ghost use Rattle.dex_io.specs.Reading.{TookUpTo, TookMore};

use crate::{Failed, ReadAll};
use std::alloc::Global;

/// What gives bytes. A read that fails takes none of them, so the next read goes on at the same place.
pub trait Source {
    /// The bytes that are still to come, where the source tells them.
    ghost left: { Self → Option (List ℕ) };

    /// How often a read has failed.
    ghost faults: { Self → ℕ };

    /// Puts the next bytes at the front of the buffer, and answers how many: 0 only at the end of input or into an
    /// empty buffer.
    fn read(&mut self, buf: &mut [u8]) -> Result<usize, Failed>
        ensures within { IfOk result (λ n. n ≤ length buf.old) }
        ensures bytes { IfOk result (λ n. left self.old ≡ prepend_known (take n buf.new) (left self.new)) }
        ensures end { result ≡ Ok 0 → 0 < length buf.old → IsAtEnd (left self.new) }

        ensures failed { OnErr result (Rose (faults self.old) (faults self.new)) }
        ensures unchanged { OnErr result (left self.new ≡ left self.old) }

        ensures later { faults self.old ≤ faults self.new }
        ensures tells { is_some (left self.new) ≡ is_some (left self.old) };
}

/// How many bytes are asked for at a time.
const CHUNK: usize = 65_536;

/// Reads to the end of input. It takes at most one byte more than `limit`, and answers `TooLong` exactly where it did.
pub fn read_all<S: Source>(alloc: Global, source: &mut S, limit: usize) -> Result<Vec<u8>, ReadAll>
    ensures whole { IfOk result (λ text. IfSome (S.left source.old) (λ bytes. text.items ≡ bytes)) }
    ensures end { OnOk result (IsAtEnd (S.left source.new)) }
    ensures short { IfOk result (λ text. vec_len text ≤ limit) }
    ensures refuses { IfSome (S.left source.old) (λ bytes. limit < length bytes → IsErr result) }

    ensures fault { IsErrOf result ReadAll.Fault → Rose (S.faults source.old) (S.faults source.new) }
    ensures too_long { IfSome (S.left source.old)
        (λ bytes. IsErrOf result ReadAll.TooLong ↔ TookMore limit bytes (S.left source.new)) }

    // Whatever the answer is, what was taken is a front of what was left.
    ensures front { IfSome (S.left source.old) (λ bytes. TookUpTo (limit + 1) bytes (S.left source.new)) }
    ensures later { S.faults source.old ≤ S.faults source.new }
    ensures tells { is_some (S.left source.new) ≡ is_some (S.left source.old) }
{
    let mut text = Vec::new(alloc);
    let mut chunk = [0; CHUNK];
    'chunks: loop {
        let room = limit - text.len();
        let count = read_chunk(source, &mut chunk, room)?;
        if count == 0 {
            return Ok(text);
        }
        if count > room {
            return Err(ReadAll::TooLong);
        }
        text.extend_from_slice(&chunk[..count])?;
    }
}

/// Reads once into the front of the chunk, at most one byte more than `room`.
fn read_chunk<S: Source>(source: &mut S, chunk: &mut [u8], room: usize) -> Result<usize, Failed>
    requires { 0 < length chunk.old }
    ensures within { IfOk result (λ n. n ≤ length chunk.old) }
    ensures room { IfOk result (λ n. n ≤ room + 1) }
    ensures bytes { IfOk result (λ n. S.left source.old ≡ prepend_known (take n chunk.new) (S.left source.new)) }
    ensures end { result ≡ Ok 0 → IsAtEnd (S.left source.new) }
    ensures failed { OnErr result (Rose (S.faults source.old) (S.faults source.new)) }
    ensures unchanged { OnErr result (S.left source.new ≡ S.left source.old) }
    ensures later { S.faults source.old ≤ S.faults source.new }
{
    let window = if room < chunk.len() {
        room + 1
    } else {
        chunk.len()
    };
    source.read(&mut chunk[..window])
}
