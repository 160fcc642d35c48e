//! What is recorded of a call beside its row.

ghost use Rattle.std.specs.Prelude.{◌≡◌};

use dex_act::RowDone;
use dex_stamps::{Kept, Stamp};
use dex_types::{Entry, Reply, Seen};

/// What the row of a call saw and the entry that it made in its market's journal, which only clauses read, the entry's
/// reply, and its stamp.
#[derive(Drop)]
pub struct StampedRecord {
    pub seen: Kept<Seen>,
    pub entry: Kept<Entry>,
    pub reply: Reply,
    pub stamp: Stamp,
    pub ghost told: { reply ≡ entry.value.reply },
}

impl StampedRecord {
    /// What is recorded of what a row did.
    pub(crate) fn of(done: RowDone, stamp: Stamp) -> StampedRecord
        requires { done.reply ≡ done.entry.value.reply }
        ensures seen { result.seen.value ≡ done.seen.value }
        ensures entry { result.entry.value ≡ done.entry.value }
        ensures stamp { result.stamp ≡ stamp }
    {
        let RowDone { seen, entry, reply } = done;
        StampedRecord {
            seen,
            entry,
            reply,
            stamp,
        }
    }
}
