//! A call of any command on one thread, and how an answer is told.

ghost use Rattle.dex_types.specs.Limits.{AreLimits};
ghost use Rattle.dex_call.specs.Calls.{EndsWithin, Tells, done};

use crate::writing::{put, size_of};
use dex_answers::{Status, StatusText};
use dex_commands::answer_within;
use dex_types::{Limits, NoMemory};
use dex_words::PlainCommand;
use std::alloc::Global;

/// Answers a command to bytes within these limits: writes the text into the room where it fits, tells its length, and
/// gives the number of its status.
pub(crate) fn call(
    alloc: Global,
    command: PlainCommand,
    bytes: &[u8],
    limits: &Limits,
    room: &mut [u8],
    size: &mut usize,
) -> u8
    requires { AreLimits limits.now }
    ensures { EndsWithin limits.now command bytes.now (done room.old room.new result size.new) }
{
    *size = 0;
    if !command.is_within() {
        return Status::Usage.code();
    }
    tell(answer_within(alloc, command, bytes, limits), room, size)
}

/// Tells an answer: writes the text into the room where it fits, tells its length, and gives the number of its status.
pub(crate) fn tell(told: Result<StatusText, NoMemory>, room: &mut [u8], size: &mut usize) -> u8
    ensures { Tells told (done room.old room.new result size.new) }
{
    *size = 0;
    let Ok(told) = told else {
        return Status::NoMemory.code();
    };
    let Some(length) = size_of(&told.pieces) else {
        return Status::NoMemory.code();
    };
    put(&told.pieces, length, room);
    *size = length;
    told.status.code()
}
