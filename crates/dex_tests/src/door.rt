//! Threads come in at one door, over and over. The test ends by itself, whatever the schedule.
ghost use Rattle.std.specs.Prelude.{⊤};

use dex_gate::Door;
use dex_lanes::{Job, run_jobs};
use std::sync::Wait;
use std::sync::atomic::{AtomicU64, Ordering};
use std::test::Fail;
use std::thread;

/// How often each of eight threads comes in.
const STAYS: u32 = 2_000;

// Who is behind the door, and who met another there.
#[derive(Drop)]
struct Room {
    door: Door,
    inside: AtomicU64,
    met: AtomicU64,
}

// Comes in and goes out, over and over, and yields in between, so that those who wait sleep.
#[derive(Drop)]
struct Comes<'a, R> {
    rt: &'a R,
    room: &'a Room,
}

impl<'a, R: Wait> Job for Comes<'a, R> {
    ghost ready = { λ _. ⊤ };

    ghost ran = { λ _ _. ⊤ };

    fn run(&mut self) {
        let room = self.room;
        for _ in 0..STAYS {
            room.door.come_in(self.rt);
            if room.inside.swap(1, Ordering::SeqCst) != 0 {
                room.met.fetch_add(1, Ordering::SeqCst);
            }
            thread::yield_now();
            room.inside.store(0, Ordering::SeqCst);
            room.door.go_out();
        }
    }
}

// More threads than processors share a door. Where who goes out wakes nobody, or another than who is next, this does
// not end in time.
#[test]
fn one_at_a_time_is_behind_a_door(rt: HostRuntime) -> Result<(), Fail> {
    let room = Room {
        door: Door::new(),
        inside: AtomicU64::new(0),
        met: AtomicU64::new(0),
    };
    let mut jobs = [&room; 8].map(|room| Comes { rt: &rt, room });
    run_jobs(&rt, &mut jobs);
    assert!(rt; room.met.load(Ordering::SeqCst) == 0);
    Ok(())
}
