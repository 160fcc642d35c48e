//! A sink over memory whose listed calls fail.

ghost use Rattle.std.specs.Prelude.{◌≡◌, ◌≤◌, [], Some, IfOk, IsErr, OnErr, Contains};
ghost use Rattle.dex_io.specs.Faults.{Rose, next_count};
ghost use Rattle.dex_io.specs.Writing.{Writes};

use super::plain_sink::SureSink;
use super::schedule::Schedule;
use crate::{Failed, Sink};
use dex_types::NoMemory;
use std::alloc::Global;
use std::marker::Model;

/// A sink with room that also fails at listed calls.
#[derive(Drop)]
pub struct MemSink {
    sink: SureSink,
    schedule: Schedule,
}

impl Model for MemSink {
    ghost use Rattle.dex_io.specs.States.{ListedSinkState};

    ghost Value = { ListedSinkState };

    ghost view = { λ s. record { sink = s.sink; calls = s.schedule.calls; fails = s.schedule.fails.items } };
}

impl MemSink {
    /// An empty sink that takes `room` bytes in all, and fails at the calls whose number, counted from 0, stands in
    /// `fails`. From number 2^64 - 1 on each call has that number.
    pub fn with_room(alloc: Global, room: usize, fails: Vec<u64>) -> Result<MemSink, NoMemory>
        ensures { IfOk result (λ sink. sink ≡ record {
          sink = record { taken = []; room = room; faults = 0 };
          calls = 0;
          fails = fails.items;
        }) }
    {
        Ok(MemSink {
            sink: SureSink::with_room(alloc, room)?,
            schedule: Schedule { calls: 0, fails },
        })
    }

    /// The bytes that it took.
    pub fn bytes(&self) -> &[u8]
        ensures { result.now ≡ self.now.sink.taken }
    {
        self.sink.bytes()
    }
}

impl Sink for MemSink {
    ghost taken = { λ s. Some s.sink.taken };

    ghost faults = { λ s. s.sink.faults };

    /// Fails at a listed call, and else writes as a sink with room does.
    fn write(&mut self, piece: &[u8]) -> Result<usize, Failed>
        ensures listed { Contains self.old.fails self.old.calls → IsErr result }
        ensures others { ¬ Contains self.old.fails self.old.calls
            → Writes self.old.sink piece.now result self.new.sink }
        ensures err { OnErr result (self.new.sink
            ≡ record self.old.sink { faults = next_count self.old.sink.faults }) }

        ensures failed { OnErr result (Rose self.old.sink.faults self.new.sink.faults) }
        ensures later { self.old.sink.faults ≤ self.new.sink.faults }

        ensures calls { self.new.calls ≡ next_count self.old.calls }
        ensures fails { self.new.fails ≡ self.old.fails }
    {
        if self.schedule.next_fails() {
            return Err(self.sink.fail());
        }
        self.sink.write(piece)
    }
}
