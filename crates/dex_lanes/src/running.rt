//! All jobs at once.
ghost use denote.Param.Send.{IsSend, IsSync};
ghost use Rattle.std.specs.Prelude.{◌≡◌, All, length};
ghost use Rattle.std.specs.List.{AllZip};

use crate::job::Job;
use std::marker::{Send, Sync};
use std::thread::{Threads, available_parallelism, join_mut};

/// Where nobody knows how many threads can run at once, so many.
const UNKNOWN: usize = 4;

/// How many threads can run at once, as far as the system tells.
pub fn processors<R: Threads>(rt: &R) -> usize {
    match available_parallelism(rt) {
        Ok(count) => count.get(),
        Err(_) => UNKNOWN,
    }
}

/// Runs each job once, and returns when all have ended. The caller starts a thread for each and waits: then the kernel
/// spreads them over the processors soonest. A job for which no thread can be made runs on the caller's, after those
/// that follow it. Takes no memory beyond the threads'.
#[cycle(line)]
pub fn run_jobs<R: Threads + Sync, J: Job + Send>(rt: &R, jobs: &mut [J])
    requires ready { All J.ready jobs.old }
    ensures ran { AllZip J.ran jobs.old jobs.new }
    ensures count { length jobs.new ≡ length jobs.old }
{
    if let Some((first, others)) = jobs.split_first_mut() {
        run_beside(rt, first, others);
    }
}

// Runs a job on a thread of its own, and the others meanwhile.
#[cycle(line)]
fn run_beside<R: Threads + Sync, J: Job + Send>(rt: &R, first: &mut J, others: &mut [J])
    requires first { J.ready first.old }
    requires others { All J.ready others.old }
    ensures first { J.ran first.old first.new }
    ensures others { AllZip J.ran others.old others.new }
    ensures count { length others.new ≡ length others.old }
{
    let mut own = ||
        requires { J.ready first.now }
        ensures { J.ran first.entry.now first.exit.now }
    { first.run() };
    let mut behind = ||
        requires { IsSync R.row × IsSend J.row × All J.ready others.now }
        ensures { AllZip J.ran others.entry.now others.exit.now
            × (length others.exit.now ≡ length others.entry.now) }
    { run_jobs(rt, others) };
    join_mut(rt, &mut own, &mut behind);
}
