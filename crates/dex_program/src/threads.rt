//! The answer of a command on several threads.

ghost use Rattle.std.specs.Prelude.{IfOk};
ghost use Rattle.dex_types.specs.declared.limits.TheConstants.{STANDARD};
ghost use Rattle.dex_words.specs.Spelling.{IsWithin};
ghost use Rattle.dex_words.specs.Threads.{of_threaded};
ghost use Rattle.dex_answers.specs.Told.{text_of};
ghost use Rattle.dex_commands.specs.LaneAnswers.{AnswersAll};

use crate::batch::batch_answer;
use crate::run::run_answer;
use dex_answers::StatusText;
use dex_io::Pace;
use dex_types::NoMemory;
use dex_words::ThreadedCommand;
use std::alloc::Global;
use std::marker::Sync;
use std::sync::Wait;
use std::thread::Threads;

/// What a command on several threads, whose numbers are within their limits, answers to the bytes that it read: the
/// text, and the status under which it is written. It answers otherwise only for lack of memory.
pub fn answer_on_threads<R: Threads + Wait + Sync, P: Pace + Sync>(
    rt: &R,
    alloc: Global,
    command: ThreadedCommand,
    bytes: &[u8],
    pace: &P,
) -> Result<StatusText, NoMemory>
    requires { IsWithin (of_threaded command) }
    ensures { IfOk result (λ told. AnswersAll STANDARD (of_threaded command) bytes.now told.status (text_of told)) }
{
    match command {
        ThreadedCommand::Run => run_answer(rt, alloc, bytes, pace),
        ThreadedCommand::Batch { workers } => batch_answer(rt, alloc, bytes, workers, pace),
    }
}
