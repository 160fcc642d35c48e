//! The commands that read dumps and scripts, within the widest limits.

ghost use Rattle.dex_words.specs.declared.command.PlainCommand.TheVariants.{Audit, Dump, Migrate, Replay, Worth};
ghost use Rattle.dex_types.specs.declared.limits.TheConstants.{WIDE as wide};
ghost use Rattle.dex_call.specs.Calls.{EndsWithin, done};

use crate::calling::call;
use dex_types::WIDE;
use dex_words::PlainCommand;
use std::alloc::Global;

/// Like `replay`.
pub fn replay_wide(alloc: Global, script: &[u8], room: &mut [u8], size: &mut usize) -> u8
    ensures { EndsWithin wide Replay script.now (done room.old room.new result size.new) }
{
    call(alloc, PlainCommand::Replay, script, &WIDE, room, size)
}

/// Like `dump`.
pub fn dump_wide(alloc: Global, script: &[u8], room: &mut [u8], size: &mut usize) -> u8
    ensures { EndsWithin wide Dump script.now (done room.old room.new result size.new) }
{
    call(alloc, PlainCommand::Dump, script, &WIDE, room, size)
}

/// Like `audit`.
pub fn audit_wide(alloc: Global, dump: &[u8], room: &mut [u8], size: &mut usize) -> u8
    ensures { EndsWithin wide Audit dump.now (done room.old room.new result size.new) }
{
    call(alloc, PlainCommand::Audit, dump, &WIDE, room, size)
}

/// Like `worth`.
pub fn worth_wide(alloc: Global, script: &[u8], room: &mut [u8], size: &mut usize) -> u8
    ensures { EndsWithin wide Worth script.now (done room.old room.new result size.new) }
{
    call(alloc, PlainCommand::Worth, script, &WIDE, room, size)
}

/// Like `migrate`.
pub fn migrate_wide(
    alloc: Global,
    nodes: u32,
    events: u32,
    dump: &[u8],
    room: &mut [u8],
    size: &mut usize,
) -> u8
    ensures { EndsWithin wide (Migrate nodes events) dump.now (done room.old room.new result size.new) }
{
    let command = PlainCommand::Migrate { nodes, events };
    call(alloc, command, dump, &WIDE, room, size)
}
