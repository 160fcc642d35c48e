//! A source over memory whose listed calls fail.

ghost use Rattle.std.specs.Prelude.{◌≡◌, ◌↔◌, ◌≤◌, ◌++◌, length, take, drop, min, Some, IsErr, IfOk, OnOk, OnErr, Contains};
ghost use Rattle.dex_io.specs.Faults.{Rose, next_count};

use super::plain_source::SureSource;
use super::schedule::Schedule;
use crate::failure::fault;
use crate::{Failed, Source};
use std::marker::Model;

/// A source of told bytes that fails at listed calls.
#[derive(Drop)]
pub struct MemSource {
    source: SureSource,
    schedule: Schedule,
    faults: u64,
}

impl Model for MemSource {
    ghost use Rattle.dex_io.specs.States.{ListedSourceState};

    ghost Value = { ListedSourceState };

    ghost view = { λ s. record {
      left = s.source;
      faults = s.faults;
      calls = s.schedule.calls;
      fails = s.schedule.fails.items;
    } };
}

impl MemSource {
    /// A source that gives these bytes, and fails at the calls whose number, counted from 0, stands in `fails`. From
    /// number 2^64 - 1 on each call has that number.
    pub fn new(bytes: Vec<u8>, fails: Vec<u64>) -> MemSource
        ensures { result ≡ record { left = bytes.items; faults = 0; calls = 0; fails = fails.items } }
    {
        MemSource {
            source: SureSource::new(bytes),
            schedule: Schedule { calls: 0, fails },
            faults: 0,
        }
    }
}

impl Source for MemSource {
    ghost left = { λ s. Some s.left };

    ghost faults = { λ s. s.faults };

    /// Fails at a listed call, and else fills the buffer as far as there are bytes.
    fn read(&mut self, buf: &mut [u8]) -> Result<usize, Failed>
        ensures listed { IsErr result ↔ Contains self.old.fails self.old.calls }

        ensures count { IfOk result (λ n. n ≡ min (length buf.old) (length self.old.left)) }
        ensures buffer { OnOk result (buf.new
            ≡ take (length buf.old) self.old.left ++ drop (length self.old.left) buf.old) }
        ensures ok { OnOk result (self.new ≡ record self.old {
          left = drop (length buf.old) self.old.left;
          calls = next_count self.old.calls;
        }) }

        ensures err { OnErr result (self.new ≡ record self.old {
          faults = next_count self.old.faults;
          calls = next_count self.old.calls;
        }) }

        ensures failed { OnErr result (Rose self.old.faults self.new.faults) }
        ensures later { self.old.faults ≤ self.new.faults }
    {
        if self.schedule.next_fails() {
            return Err(fault(&mut self.faults));
        }
        self.source.read(buf)
    }
}
