//! The answer of a command.

ghost use Rattle.std.specs.Prelude.{IfOk};
ghost use Rattle.dex_words.specs.Spelling.{IsWithin};
ghost use Rattle.dex_words.specs.Threads.{of_plain};
ghost use Rattle.dex_types.specs.Limits.{AreLimits};
ghost use Rattle.dex_answers.specs.Answers.{AnswersWithin};
ghost use Rattle.dex_answers.specs.Told.{text_of};

use crate::worth::worth_answer;
use dex_answers::{
    StatusText, audit_answer, bulk_answer, dump_answer, make_answer, migrate_answer, replay_answer,
};
use dex_types::{Limits, NoMemory};
use dex_words::PlainCommand;
use std::alloc::Global;

/// What a command on one thread, whose numbers are within their limits, answers to the bytes that it read, within these
/// limits: the text, and the status under which it is written. `make` and `bulk` read none, and their answers are of
/// the program's limits. It answers otherwise only for lack of memory.
pub fn answer_within(
    alloc: Global,
    command: PlainCommand,
    bytes: &[u8],
    limits: &Limits,
) -> Result<StatusText, NoMemory>
    requires command { IsWithin (of_plain command) }
    requires limits { AreLimits limits.now }
    ensures { IfOk result (λ told. AnswersWithin limits.now (of_plain command) bytes.now told.status (text_of told)) }
{
    match command {
        PlainCommand::Replay => replay_answer(alloc, bytes, limits),
        PlainCommand::Dump => dump_answer(alloc, bytes, limits),
        PlainCommand::Audit => audit_answer(alloc, bytes, limits),
        PlainCommand::Worth => worth_answer(alloc, bytes, limits),
        PlainCommand::Make { number, rows } => make_answer(alloc, number, rows),
        PlainCommand::Bulk { number, rows } => bulk_answer(alloc, number, rows),
        PlainCommand::Migrate { nodes, events } => {
            migrate_answer(alloc, bytes, nodes, events, limits)
        }
    }
}
