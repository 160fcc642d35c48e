//! What a cell tells of a call beside its row.

use dex_types::{Entry, Seen};

/// What the row of a call saw, and the entry that it made.
#[derive(Clone, Copy, Debug)]
pub struct CallRecord {
    pub seen: Seen,
    pub entry: Entry,
}
