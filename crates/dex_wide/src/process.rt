//! A process of the program: the words that it begins with, and the number that it ends with.

ghost use Rattle.std.specs.Prelude.{map};
ghost use Rattle.std.specs.String.{string_bytes};
ghost use Rattle.dex_types.specs.declared.limits.TheConstants.{WIDE as wide};
ghost use Rattle.dex_commands.specs.Ending.{EndsWithin, input, output};
ghost use Rattle.dex_commands.specs.Process.{EndsProcess, words_given};
ghost use Rattle.dex_wide.specs.Commands.{wide_command_of};

use dex_answers::Status;
use dex_commands::{Stop, behind_name, plain_within, written};
use dex_io::{Sink, Source};
use dex_types::WIDE;
use dex_words::{WordsError, read_words};
use std::alloc::Global;

/// Runs the program on all words that its process began with but the first, which is its name. The answer is the number
/// of the status, with which the process ends. Words that are no text are no command. Where there was no memory for the
/// words it is 7, and nothing is read or written.
pub fn run_process<S: Source, K: Sink>(
    alloc: Global,
    words: &Result<Vec<String>, WordsError>,
    source: &mut S,
    sink: &mut K,
) -> u8
    ensures { EndsProcess wide wide_command_of (words_given words.now)
        (input (S.left source.old) (S.left source.new) (S.faults source.old) (S.faults source.new))
        (output (K.taken sink.old) (K.taken sink.new) (K.faults sink.old) (K.faults sink.new)) result }
{
    match behind_name(words) {
        Some(words) => by_words(alloc, words, source, sink).code(),
        None => Status::NoMemory.code(),
    }
}

/// Runs the command that the words are, or writes how the program is used.
fn by_words<S: Source, K: Sink>(
    alloc: Global,
    words: &[String],
    source: &mut S,
    sink: &mut K,
) -> Status
    ensures { EndsWithin wide (wide_command_of (map (λ word. string_bytes word) words.now))
        (input (S.left source.old) (S.left source.new) (S.faults source.old) (S.faults source.new))
        (output (K.taken sink.old) (K.taken sink.new) (K.faults sink.old) (K.faults sink.new)) result }
{
    match read_words(alloc, words) {
        Ok(command) => match command.threaded() {
            Some(_) => written(sink, Stop::Usage.line(), Status::Usage),
            None => plain_within(alloc, command, &WIDE, source, sink),
        },
        Err(WordsError::Usage) => written(sink, Stop::Usage.line(), Status::Usage),
        Err(WordsError::NoMemory) => written(sink, Stop::NoMemory.line(), Status::NoMemory),
    }
}
