//! One function for each command on one thread. Of each the answer is the number of a status, as the program's exit
//! status: 7 where memory was wanting, 1 where a number is not within its limits. `size` is set to the length of the
//! text in bytes, 0 in these two cases; the text is written to the front of `room` where it fits, and else `room` stays
//! as it is.

ghost use Rattle.std.specs.Prelude.{[]};
ghost use Rattle.dex_words.specs.declared.command.PlainCommand.TheVariants.{Audit, Bulk, Dump, Make, Migrate, Replay, Worth};
ghost use Rattle.dex_call.specs.Calls.{Ends, done};

use crate::calling::call;
use dex_types::STANDARD;
use dex_words::PlainCommand;
use std::alloc::Global;

/// The report of what is left when all rows of a script have acted, one after the other.
pub fn replay(alloc: Global, script: &[u8], room: &mut [u8], size: &mut usize) -> u8
    ensures { Ends Replay script.now (done room.old room.new result size.new) }
{
    call(alloc, PlainCommand::Replay, script, &STANDARD, room, size)
}

/// The dump of the accounts that a script leaves.
pub fn dump(alloc: Global, script: &[u8], room: &mut [u8], size: &mut usize) -> u8
    ensures { Ends Dump script.now (done room.old room.new result size.new) }
{
    call(alloc, PlainCommand::Dump, script, &STANDARD, room, size)
}

/// What an audit of a dump finds.
pub fn audit(alloc: Global, dump: &[u8], room: &mut [u8], size: &mut usize) -> u8
    ensures { Ends Audit dump.now (done room.old room.new result size.new) }
{
    call(alloc, PlainCommand::Audit, dump, &STANDARD, room, size)
}

/// What each account of each market is worth when all rows of a script have acted.
pub fn worth(alloc: Global, script: &[u8], room: &mut [u8], size: &mut usize) -> u8
    ensures { Ends Worth script.now (done room.old room.new result size.new) }
{
    call(alloc, PlainCommand::Worth, script, &STANDARD, room, size)
}

/// The dump of the same accounts with sides of so many nodes and event queues for so many events.
pub fn migrate(
    alloc: Global,
    nodes: u32,
    events: u32,
    dump: &[u8],
    room: &mut [u8],
    size: &mut usize,
) -> u8
    ensures { Ends (Migrate nodes events) dump.now (done room.old room.new result size.new) }
{
    let command = PlainCommand::Migrate { nodes, events };
    call(alloc, command, dump, &STANDARD, room, size)
}

/// The made script of a number, with so many drawn rows.
pub fn make(alloc: Global, number: u64, rows: u32, room: &mut [u8], size: &mut usize) -> u8
    ensures { Ends (Make number rows) [] (done room.old room.new result size.new) }
{
    call(
        alloc,
        PlainCommand::Make { number, rows },
        &[],
        &STANDARD,
        room,
        size,
    )
}

/// The summary of what that script leaves.
pub fn bulk(alloc: Global, number: u64, rows: u32, room: &mut [u8], size: &mut usize) -> u8
    ensures { Ends (Bulk number rows) [] (done room.old room.new result size.new) }
{
    call(
        alloc,
        PlainCommand::Bulk { number, rows },
        &[],
        &STANDARD,
        room,
        size,
    )
}
