//! What a command takes of its source.

ghost use Rattle.std.specs.Prelude.{◌≡◌, IfErr, IfOk, IsTrue, Some, false};
ghost use Rattle.dex_words.specs.declared.command.Command.{Command};
ghost use Rattle.dex_words.specs.Threads.{of_plain};
ghost use Rattle.dex_commands.specs.Ending.{HasRead, IsReading, StandsWithin, Took, input};
ghost use Rattle.dex_commands.specs.Stops.{line_of, status_of};

use crate::stop::Stop;
use dex_io::{Source, read_all};
use dex_types::Limits;
use dex_words::PlainCommand;
use std::alloc::Global;

/// All bytes of the input, within these limits, or why a command that reads has no answer.
pub fn read_input<S: Source>(
    alloc: Global,
    limits: &Limits,
    source: &mut S,
) -> Result<Vec<u8>, Stop>
    ensures read { IfOk result (λ bytes. HasRead limits.now
        (input (S.left source.old) (S.left source.new) (S.faults source.old) (S.faults source.new)) bytes.items) }
    ensures stopped { IfErr result (λ stop. (command : Command) → IsReading command
        → StandsWithin limits.now (status_of stop) (Some command)
        (input (S.left source.old) (S.left source.new) (S.faults source.old) (S.faults source.new)) (line_of stop)) }
{
    match read_all(alloc, source, limits.bytes) {
        Ok(bytes) => Ok(bytes),
        Err(why) => Err(Stop::from(why)),
    }
}

/// The bytes that a command on one thread looks at: all of its input, or none.
#[tactic(auto, using(crate::proofs::Endings::took, crate::proofs::Endings::took_none))]
pub(crate) fn taken<S: Source>(
    alloc: Global,
    command: PlainCommand,
    limits: &Limits,
    source: &mut S,
) -> Result<Vec<u8>, Stop>
    ensures read { IfOk result (λ bytes. Took limits.now (of_plain command)
        (input (S.left source.old) (S.left source.new) (S.faults source.old) (S.faults source.new)) bytes.items) }
    ensures stopped { IfErr result (λ stop. StandsWithin limits.now (status_of stop) (Some (of_plain command))
        (input (S.left source.old) (S.left source.new) (S.faults source.old) (S.faults source.new)) (line_of stop)) }
{
    if !is_reading(command) {
        return Ok(Vec::new(alloc));
    }
    read_input(alloc, limits, source)
}

/// Whether the command reads its input.
fn is_reading(command: PlainCommand) -> bool
    ensures reads { IsTrue result → IsReading (of_plain command) }
    ensures other { result ≡ false → ¬ (IsReading (of_plain command)) }
{
    !matches!(
        command,
        PlainCommand::Make { .. } | PlainCommand::Bulk { .. }
    )
}
