//! A run of the program: its words, its input, its output and its status.

ghost use Rattle.std.specs.Prelude.{IfErr, IfOk, Some, map};
ghost use Rattle.std.specs.String.{string_bytes};
ghost use Rattle.dex_words.specs.Commands.{command_of};
ghost use Rattle.dex_words.specs.Spelling.{IsWithin};
ghost use Rattle.dex_words.specs.Threads.{of_threaded};
ghost use Rattle.dex_answers.specs.Told.{text_of};
ghost use Rattle.dex_commands.specs.Ending.{Completes, Ends, Stands, input, output};
ghost use Rattle.dex_commands.specs.Stops.{line_of, status_of};
ghost use Rattle.dex_commands.specs.Listed.{ListedOrder, WhereListed};
ghost use Rattle.dex_program.specs.Ending.{OneLegalHistory, OneOrder, WhereRun};

use crate::threads::answer_on_threads;
use dex_answers::{Status, StatusText};
use dex_commands::{Stop, plain, read_input, written, written_each};
use dex_io::{Pace, Sink, Source};
use dex_types::STANDARD;
use dex_words::{ThreadedCommand, WordsError, read_words};
use std::alloc::Global;
use std::marker::Sync;
use std::sync::Wait;
use std::thread::Threads;

/// Runs the program on these words, those after its name: the command that they are, or the line that tells how the
/// program is used. The whole text is built before the first byte is written. `run` and `batch` act on several threads,
/// which wait for each other: what is promised of them holds where they return. The pace is for tests, and no clause
/// says when it is called.
pub fn dex_main<R: Threads + Wait + Sync, S: Source, K: Sink, P: Pace + Sync>(
    rt: &R,
    alloc: Global,
    words: &[String],
    source: &mut S,
    sink: &mut K,
    pace: &P,
) -> Status
    // What each status says of the words, the source and the sink.
    ensures ends { Ends (command_of (map (λ word. string_bytes word) words.now))
        (input (S.left source.old) (S.left source.new) (S.faults source.old) (S.faults source.new))
        (output (K.taken sink.old) (K.taken sink.new) (K.faults sink.old) (K.faults sink.new)) result }
    // `replay` and `batch` report what all items leave in listed order; of each swap both legs took, or neither.
    ensures listed_order { WhereListed ListedOrder (command_of (map (λ word. string_bytes word) words.now))
        (input (S.left source.old) (S.left source.new) (S.faults source.old) (S.faults source.new))
        (output (K.taken sink.old) (K.taken sink.new) (K.faults sink.old) (K.faults sink.new)) result }
    // However the lanes' instructions interleave, each market's journal is one legal history; and swaps likewise.
    ensures one_legal_history { WhereRun OneLegalHistory (command_of (map (λ word. string_bytes word) words.now))
        (input (S.left source.old) (S.left source.new) (S.faults source.old) (S.faults source.new))
        (output (K.taken sink.old) (K.taken sink.new) (K.faults sink.old) (K.faults sink.new)) result }
    // And what they leave is what all items leave in some order that keeps the order of each lane.
    ensures one_order { WhereRun OneOrder (command_of (map (λ word. string_bytes word) words.now))
        (input (S.left source.old) (S.left source.new) (S.faults source.old) (S.faults source.new))
        (output (K.taken sink.old) (K.taken sink.new) (K.faults sink.old) (K.faults sink.new)) result }
    // An input that suits the command is answered, where no call fails and memory is there.
    ensures completes { Completes (command_of (map (λ word. string_bytes word) words.now))
        (input (S.left source.old) (S.left source.new) (S.faults source.old) (S.faults source.new))
        (output (K.taken sink.old) (K.taken sink.new) (K.faults sink.old) (K.faults sink.new)) result }
{
    by_words(rt, alloc, words, source, sink, pace)
}

// Runs the command that the words are, or writes how the program is used.
fn by_words<R: Threads + Wait + Sync, S: Source, K: Sink, P: Pace + Sync>(
    rt: &R,
    alloc: Global,
    words: &[String],
    source: &mut S,
    sink: &mut K,
    pace: &P,
) -> Status
    ensures { Ends (command_of (map (λ word. string_bytes word) words.now))
        (input (S.left source.old) (S.left source.new) (S.faults source.old) (S.faults source.new))
        (output (K.taken sink.old) (K.taken sink.new) (K.faults sink.old) (K.faults sink.new)) result }
{
    match read_words(alloc, words) {
        Ok(command) => match command.threaded() {
            Some(threaded) => on_threads(rt, alloc, threaded, source, sink, pace),
            None => plain(alloc, &command, source, sink),
        },
        Err(WordsError::Usage) => written(sink, Stop::Usage.line(), Status::Usage),
        Err(WordsError::NoMemory) => written(sink, Stop::NoMemory.line(), Status::NoMemory),
    }
}

// Runs one command on several threads.
fn on_threads<R: Threads + Wait + Sync, S: Source, K: Sink, P: Pace + Sync>(
    rt: &R,
    alloc: Global,
    command: ThreadedCommand,
    source: &mut S,
    sink: &mut K,
    pace: &P,
) -> Status
    requires within { IsWithin (of_threaded command) }
    ensures { Ends (Some (of_threaded command))
        (input (S.left source.old) (S.left source.new) (S.faults source.old) (S.faults source.new))
        (output (K.taken sink.old) (K.taken sink.new) (K.faults sink.old) (K.faults sink.new)) result }
{
    match threads_answer(rt, alloc, command, source, pace) {
        Ok(told) => written_each(sink, &told.pieces, told.status),
        Err(stop) => written(sink, stop.line(), stop.status()),
    }
}

// Reads what the command reads, and answers the text that it asks for.
fn threads_answer<R: Threads + Wait + Sync, S: Source, P: Pace + Sync>(
    rt: &R,
    alloc: Global,
    command: ThreadedCommand,
    source: &mut S,
    pace: &P,
) -> Result<StatusText, Stop>
    requires within { IsWithin (of_threaded command) }
    ensures built { IfOk result (λ built. Stands built.status (Some (of_threaded command))
        (input (S.left source.old) (S.left source.new) (S.faults source.old) (S.faults source.new)) (text_of built)) }
    ensures stopped { IfErr result (λ stop. Stands (status_of stop) (Some (of_threaded command))
        (input (S.left source.old) (S.left source.new) (S.faults source.old) (S.faults source.new)) (line_of stop)) }
{
    let bytes = read_input(alloc, &STANDARD, source)?;
    let built = answer_on_threads(rt, alloc, command, &bytes, pace)?;
    Ok(built)
}
