//! A desk in memory, which tells its turns.

ghost use Rattle.std.specs.Prelude.{◌≡◌, ◌<◌, ◌≤◌, ◌++◌, [], ◌∷◌, IfOk, OnErr, OnOk, drop, length, map, max};
ghost use Rattle.dex_answers.specs.declared.status.Status.TheVariants as status;
ghost use Rattle.dex_io.specs.Faults.{Rose};
ghost use Rattle.dex_desk.specs.Calls.{HaveHeard, turn_of};
ghost use Rattle.dex_desk.specs.Talks.{IsSession};
ghost use Rattle.dex_desk.specs.Turns.Turn.{Heard, Said};

use crate::desk::Desk;
use crate::serving::serve;
use dex_answers::Status;
use dex_io::Failed;
use std::alloc::{AllocError, Global};
use std::marker::Model;

/// A call of a desk, with its bytes.
#[derive(Drop)]
pub enum Call {
    /// These were heard.
    Heard(Vec<u8>),
    /// These were said.
    Said(Vec<u8>),
}

/// Hears the bytes of a list, and keeps each call. It hears and says so many bytes at a time at most, and 1 at least. A
/// call for which there is no memory fails. A contract sees what it is to hear, its turns, and how many calls failed.
#[derive(Drop)]
pub struct ListDesk {
    alloc: Global,
    input: Vec<u8>,
    at: usize,
    step: usize,
    calls: Vec<Call>,
    deaf: u64,
    mute: u64,
}

impl Model for ListDesk {
    ghost use Rattle.std.specs.Prelude.{◌≤◌, drop, length, map, max};
    ghost use Rattle.dex_desk.specs.Calls.{AreBlocksOf, DeskState, turn_of};

    ghost Value = { DeskState };

    ghost view = { λ s. record {
      input = s.input.items;
      most = max s.step 1;
      turns = map turn_of s.calls.items;
      deaf = s.deaf;
      mute = s.mute;
    } };

    ghost invariant = { λ s. (s.at ≤ length s.input.items)
        × AreBlocksOf (max s.step 1) (map turn_of s.calls.items) s.input.items (drop s.at s.input.items) };
}

impl ListDesk {
    /// It hears these bytes.
    pub fn new(alloc: Global, input: Vec<u8>, step: usize) -> ListDesk
        ensures { result ≡ record { input = input.items; most = max step 1; turns = []; deaf = 0; mute = 0 } }
    {
        ListDesk {
            alloc,
            input,
            at: 0,
            step,
            calls: Vec::new(alloc),
            deaf: 0,
            mute: 0,
        }
    }

    /// Its calls. They heard what it is to hear, from the front on.
    pub fn into_calls(self) -> Vec<Call>
        ensures calls { map turn_of result.items ≡ self.turns }
        ensures heard { HaveHeard self.most self.turns self.input }
    {
        let ListDesk {
            alloc: _,
            input: _,
            at: _,
            step: _,
            calls,
            deaf: _,
            mute: _,
        } = self;
        calls
    }
}

/// A session of these bytes, so many heard and said at a time at most: its status, and the desk. Its turns are a talk
/// from the first byte on, and what they heard is a front of the bytes; where one heard nothing, all of them. At
/// statuses 4 and 5 a call failed.
pub fn serve_list(alloc: Global, input: Vec<u8>, step: usize) -> (Status, ListDesk)
    ensures session { IsSession result.0 result.1.turns }
    ensures heard { HaveHeard (max step 1) result.1.turns input.items }
    ensures deaf { result.0 ≡ status.ReadFault → Rose 0 result.1.deaf }
    ensures mute { result.0 ≡ status.WriteFault → Rose 0 result.1.mute }
{
    let mut desk = ListDesk::new(alloc, input, step);
    let ended = serve(alloc, &mut desk);
    // What the desk's type keeps of its calls, for the proof.
    let _ = &desk.calls;
    (ended, desk)
}

/// One fault more, up to the greatest count.
fn count_fault(faults: &mut u64)
    ensures rose { Rose faults.old faults.new }
    ensures later { faults.old ≤ faults.new }
{
    *faults = faults.saturating_add(1);
}

/// Bytes of their own.
fn copy_of(alloc: Global, bytes: &[u8]) -> Result<Vec<u8>, AllocError>
    ensures { IfOk result (λ copy. copy.items ≡ bytes.now) }
{
    let mut copy = Vec::new(alloc);
    copy.extend_from_slice(bytes)?;
    Ok(copy)
}

/// Keeps that bytes were heard.
fn keep_heard(alloc: Global, calls: &mut Vec<Call>, bytes: &[u8]) -> Result<(), AllocError>
    ensures kept { OnOk result
        (map turn_of calls.new.items ≡ map turn_of calls.old.items ++ (Heard bytes.now ∷ [])) }
    ensures same { OnErr result (calls.new.items ≡ calls.old.items) }
{
    let copy = copy_of(alloc, bytes)?;
    match calls.push(Call::Heard(copy)) {
        Ok(()) => Ok(()),
        Err(_) => Err(AllocError),
    }
}

/// Keeps that bytes were said.
fn keep_said(alloc: Global, calls: &mut Vec<Call>, bytes: &[u8]) -> Result<(), AllocError>
    ensures kept { OnOk result
        (map turn_of calls.new.items ≡ map turn_of calls.old.items ++ (Said bytes.now ∷ [])) }
    ensures same { OnErr result (calls.new.items ≡ calls.old.items) }
{
    let copy = copy_of(alloc, bytes)?;
    match calls.push(Call::Said(copy)) {
        Ok(()) => Ok(()),
        Err(_) => Err(AllocError),
    }
}

/// So many bytes at the front, or all.
fn front_of(bytes: &[u8], most: usize) -> &[u8]
    ensures parts { bytes.now ≡ result.now ++ drop (length result.now) bytes.now }
    ensures few { length result.now ≤ most }
    ensures within { length result.now ≤ length bytes.now }
    ensures all { length result.now < most → length result.now ≡ length bytes.now }
{
    bytes.split_at(most.min(bytes.len())).0
}

impl Desk for ListDesk {
    ghost use Rattle.std.specs.Prelude.{Some};
    ghost use Rattle.dex_desk.specs.Calls.{turns_told};

    ghost turns = { λ s. Some (turns_told s) };

    ghost deaf = { λ s. s.deaf };

    ghost mute = { λ s. s.mute };

    fn hear(&mut self, buf: &mut [u8]) -> Result<usize, Failed> {
        let left = self.input.split_at(self.at).1;
        let block = front_of(left, self.step.max(1).min(buf.len()));
        let count = block.len();
        buf[..count].copy_from_slice(block);
        match keep_heard(self.alloc, &mut self.calls, block) {
            Ok(()) => {
                self.at += count;
                Ok(count)
            }
            Err(_) => {
                count_fault(&mut self.deaf);
                Err(Failed)
            }
        }
    }

    fn say(&mut self, piece: &[u8]) -> Result<usize, Failed> {
        let count = self.step.max(1).min(piece.len());
        match keep_said(self.alloc, &mut self.calls, &piece[..count]) {
            Ok(()) => Ok(count),
            Err(_) => {
                count_fault(&mut self.mute);
                Err(Failed)
            }
        }
    }
}
