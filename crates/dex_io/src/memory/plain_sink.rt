//! A sink over memory that fails only where it is full.

ghost use Rattle.std.specs.Prelude.{◌≡◌, ◌≤◌, [], Some, IfOk, OnErr};
ghost use Rattle.dex_io.specs.Faults.{Rose, next_count};
ghost use Rattle.dex_io.specs.Writing.{Writes};

use crate::failure::fault;
use crate::{Failed, Sink};
use dex_types::NoMemory;
use std::alloc::Global;
use std::marker::Model;

/// Takes bytes until its room is used up, without taking memory for them.
#[derive(Drop)]
pub struct SureSink {
    bytes: Vec<u8>,
    room: usize,
    faults: u64,
}

impl Model for SureSink {
    ghost use Rattle.std.specs.Prelude.{◌≤◌, ◌+◌, vec_len, vec_capacity};
    ghost use Rattle.dex_io.specs.States.{SinkState};

    ghost Value = { SinkState };

    ghost view = { λ s. record { taken = s.bytes.items; room = s.room; faults = s.faults } };

    ghost invariant = { λ s. vec_len s.bytes + s.room ≤ vec_capacity s.bytes };
}

impl SureSink {
    /// An empty sink that takes `room` bytes in all.
    pub fn with_room(alloc: Global, room: usize) -> Result<SureSink, NoMemory>
        ensures { IfOk result (λ sink. sink ≡ record { taken = []; room = room; faults = 0 }) }
    {
        let bytes = Vec::with_capacity(alloc, room)?;
        Ok(SureSink {
            bytes,
            room,
            faults: 0,
        })
    }

    /// The bytes that it took.
    pub fn bytes(&self) -> &[u8]
        ensures { result.now ≡ self.now.taken }
    {
        &self.bytes
    }

    // Counts a fault, and takes nothing.
    pub(super) fn fail(&mut self) -> Failed
        ensures fault { self.new ≡ record self.old { faults = next_count self.old.faults } }
        ensures rose { Rose self.old.faults self.new.faults }
        ensures later { self.old.faults ≤ self.new.faults }
    {
        fault(&mut self.faults)
    }
}

impl Sink for SureSink {
    ghost taken = { λ s. Some s.taken };

    ghost faults = { λ s. s.faults };

    /// Takes what fits the room.
    fn write(&mut self, piece: &[u8]) -> Result<usize, Failed>
        ensures writes { Writes self.old piece.now result self.new }
        ensures failed { OnErr result (Rose self.old.faults self.new.faults) }
        ensures later { self.old.faults ≤ self.new.faults }
    {
        let count = piece.len().min(self.room);
        if count == 0 && !piece.is_empty() {
            return Err(self.fail());
        }
        self.bytes.extend_from_slice(&piece[..count]).unwrap();
        self.room -= count;
        Ok(count)
    }
}
