//! Jobs that meet. The test ends by itself, whatever the schedule.
ghost use Rattle.std.specs.Prelude.{⊤};

use dex_lanes::{Job, run_jobs};
use std::sync::atomic::{AtomicU64, Ordering};
use std::test::Fail;
use std::thread;

/// How often a job yields before it gives up.
const MOST_YIELDS: u32 = 1_000_000;

// Is inside until all jobs are, or until it gives up.
#[derive(Drop)]
struct Meets<'a> {
    inside: &'a AtomicU64,
    jobs: u64,
    met: bool,
}

impl<'a> Job for Meets<'a> {
    ghost ready = { λ _. ⊤ };

    ghost ran = { λ _ _. ⊤ };

    fn run(&mut self) {
        self.inside.fetch_add(1, Ordering::SeqCst);
        for _ in 0..MOST_YIELDS {
            if self.inside.load(Ordering::SeqCst) == self.jobs {
                self.met = true;
                return;
            }
            thread::yield_now();
        }
    }
}

#[test]
fn seventeen_jobs_are_inside_at_once(rt: HostRuntime) -> Result<(), Fail> {
    let inside = AtomicU64::new(0);
    let mut jobs = [false; 17].map(|met| Meets {
        inside: &inside,
        jobs: 17,
        met,
    });
    run_jobs(&rt, &mut jobs);
    assert!(rt; jobs.iter().all(|job| job.met));
    Ok(())
}
