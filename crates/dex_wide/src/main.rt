//! The program `dex_wide`: the commands on one thread, within the widest limits.
#![tactic(auto)]

mod process;

use crate::process::run_process;
use dex_io::{StdSink, StdSource};
use dex_words::WordsError;
use std::env;
use std::io::ErrorKind;
use std::process::ExitCode;
use std::rt::Env;

/// Runs the program on the words of its process, over standard input and standard output.
fn main(rt: HostRuntime) -> ExitCode {
    let (mut source, mut sink) = (StdSource::new(&rt), StdSink::new(&rt));
    ExitCode::from(run_process(rt.alloc(), &all_words(&rt), &mut source, &mut sink))
}

// All words of the process, the program's name first.
fn all_words<R: Env + AllocGlobal>(rt: &R) -> Result<Vec<String>, WordsError> {
    match env::args(rt) {
        Ok(words) => Ok(words.collect(rt.alloc())?),
        Err(why) if why.kind() == ErrorKind::InvalidData => Err(WordsError::Usage),
        Err(_) => Err(WordsError::NoMemory),
    }
}
