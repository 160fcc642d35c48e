//! The program `dex`: it replays scripts, on one thread or in batches on several, or lets their lanes run side by side,
//! and writes reports, dumps, audits, made scripts and summaries.
#![tactic(auto)]

mod batch;
#[cfg(test)]
mod borrowed;
mod process;
mod program;
mod run;
#[cfg(test)]
mod tests;
mod threads;
mod told;

use crate::process::run_process;
use dex_io::{NoPace, StdSink, StdSource};
use dex_words::WordsError;
use std::env;
use std::io::ErrorKind;
use std::process::ExitCode;
use std::rt::Env;

/// Runs the program on the words of its process, over standard input and standard output.
fn main(rt: HostRuntime) -> ExitCode {
    let (mut source, mut sink) = (StdSource::new(&rt), StdSink::new(&rt));
    ExitCode::from(run_process(
        &rt,
        rt.alloc(),
        &all_words(&rt),
        &mut source,
        &mut sink,
        &NoPace,
    ))
}

// All words of the process, the program's name first.
fn all_words<R: Env + AllocGlobal>(rt: &R) -> Result<Vec<String>, WordsError> {
    match env::args(rt) {
        Ok(words) => Ok(words.collect(rt.alloc())?),
        Err(why) if why.kind() == ErrorKind::InvalidData => Err(WordsError::Usage),
        Err(_) => Err(WordsError::NoMemory),
    }
}
