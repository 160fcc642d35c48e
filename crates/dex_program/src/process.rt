//! A process of the program: the words that it begins with, and the number that it ends with.

ghost use Rattle.dex_types.specs.declared.limits.TheConstants.{STANDARD};
ghost use Rattle.dex_words.specs.Commands.{command_of};
ghost use Rattle.dex_commands.specs.Ending.{input, output};
ghost use Rattle.dex_commands.specs.Process.{EndsProcess, words_given};

use crate::program::dex_main;
use dex_answers::Status;
use dex_commands::behind_name;
use dex_io::{Pace, Sink, Source};
use dex_words::WordsError;
use std::alloc::Global;
use std::marker::Sync;
use std::sync::Wait;
use std::thread::Threads;

/// Runs the program on all words that its process began with but the first, which is its name. The answer is the number
/// of the status, with which the process ends. Words that are no text are no command. Where there was no memory for the
/// words it is 7, and nothing is read or written.
pub fn run_process<R: Threads + Wait + Sync, S: Source, K: Sink, P: Pace + Sync>(
    rt: &R,
    alloc: Global,
    words: &Result<Vec<String>, WordsError>,
    source: &mut S,
    sink: &mut K,
    pace: &P,
) -> u8
    ensures { EndsProcess STANDARD command_of (words_given words.now)
        (input (S.left source.old) (S.left source.new) (S.faults source.old) (S.faults source.new))
        (output (K.taken sink.old) (K.taken sink.new) (K.faults sink.old) (K.faults sink.new)) result }
{
    match behind_name(words) {
        Some(words) => dex_main(rt, alloc, words, source, sink, pace).code(),
        None => Status::NoMemory.code(),
    }
}
