//! Jobs side by side: each job runs once, on a thread of its own where one can be made.
//!
//! A job is a value that holds all it works on, the runtime too where it may wait. Jobs may wait for each other, since
//! each has its own thread.
#![tactic(auto)]

mod job;
mod running;

pub use job::Job;
pub use running::{processors, run_jobs};
