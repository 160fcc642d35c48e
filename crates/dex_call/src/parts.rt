//! Where a script may be cut. Each call writes its text and tells its size as those of commands do.

ghost use Rattle.std.specs.Prelude.{◌≡◌, ◌<◌, ◌⊎◌};
ghost use Rattle.dex_types.specs.declared.limits.TheConstants.{STANDARD as standard, WIDE as wide};
ghost use Rattle.dex_answers.specs.declared.status.Status.TheVariants as status;
ghost use Rattle.dex_call.specs.Calls.{EndsWith, HasStopped, done};
ghost use Rattle.dex_call.specs.PartsTexts.{SaysParts, SaysShards};

use crate::calling::tell;
use crate::cutting::{parts_answer, shards_answer};
use dex_answers::Status;
use dex_types::{STANDARD, WIDE};
use std::alloc::Global;

/// The shard of each market, each wallet and each row of a script: lines `market SHARD` and `wallet SHARD` in declared
/// order, `row SHARD` for each row in its order (two for a swap), and `end`. Rows of two shards share no market and no
/// wallet.
pub fn shards(alloc: Global, script: &[u8], room: &mut [u8], size: &mut usize) -> u8
    ensures { EndsWith (SaysShards standard script.now) (done room.old room.new result size.new) }
{
    tell(shards_answer(alloc, script, &STANDARD), room, size)
}

/// How many rows each part of a chain has, for parts of at most `rows` rows (two where that is one): lines
/// `part COUNT`, and `end`. A swap is two rows and never parted. 1 where `rows` is 0.
pub fn chained(alloc: Global, rows: u32, script: &[u8], room: &mut [u8], size: &mut usize) -> u8
    ensures { ((0 < rows) × EndsWith (SaysParts standard rows script.now) (done room.old room.new result size.new))
        ⊎ ((rows ≡ 0) × HasStopped status.Usage (done room.old room.new result size.new)) }
{
    if rows == 0 {
        *size = 0;
        return Status::Usage.code();
    }
    tell(
        parts_answer(alloc, script, rows as usize, &STANDARD),
        room,
        size,
    )
}

/// Like `shards`, within the widest limits.
pub fn shards_wide(alloc: Global, script: &[u8], room: &mut [u8], size: &mut usize) -> u8
    ensures { EndsWith (SaysShards wide script.now) (done room.old room.new result size.new) }
{
    tell(shards_answer(alloc, script, &WIDE), room, size)
}

/// Like `chained`, within the widest limits.
pub fn chained_wide(
    alloc: Global,
    rows: u32,
    script: &[u8],
    room: &mut [u8],
    size: &mut usize,
) -> u8
    ensures { ((0 < rows) × EndsWith (SaysParts wide rows script.now) (done room.old room.new result size.new))
        ⊎ ((rows ≡ 0) × HasStopped status.Usage (done room.old room.new result size.new)) }
{
    if rows == 0 {
        *size = 0;
        return Status::Usage.code();
    }
    tell(
        parts_answer(alloc, script, rows as usize, &WIDE),
        room,
        size,
    )
}
