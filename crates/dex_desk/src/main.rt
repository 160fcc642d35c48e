//! The program `desk`: a live session of the exchange. It reads rows one at a time from standard input, and answers
//! each on standard output before it waits for the next.
#![tactic(auto)]

mod acting;
mod answering;
mod block;
mod book;
mod desk;
mod ends;
mod inbox;
mod laws;
mod list_desk;
mod opening;
mod rows;
mod serving;
mod set_up;
mod speaking;

use crate::desk::StdDesk;
use crate::serving::serve_process;
use std::process::ExitCode;

/// Ends with the status of the session as exit status.
fn main(rt: HostRuntime) -> ExitCode {
    ExitCode::from(serve_process(rt.alloc(), &mut StdDesk::new(&rt)))
}
