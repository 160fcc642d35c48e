//! The entry of a row in its market's journal.

ghost use Rattle.std.specs.Prelude.{◌≡◌, ◌<◌, ◌≤◌, ◌++◌, ◌∷◌, [], vec_len, vec_capacity};
ghost use Rattle.dex_types.specs.Rows.{row_of};
ghost use Rattle.dex_history.specs.Journal.{Sees, asked_of};
ghost use Rattle.dex_movements.specs.Amounts.{CanMoveEach, transfers_of};
ghost use Rattle.dex_movements.specs.Entries.{entry_by};

use crate::call_record::CallRecord;
use dex_movements::{Amounts, put_moves};
use dex_stamps::Log;
use dex_types::{Entry, Reply, Row, Seen};

/// Writes the entry of a row with this reply that moves these amounts after the others, where room for it is reserved.
/// Its movements are put where they stay.
pub(crate) fn write_down(
    calls: &mut Log<Row, CallRecord>,
    entries: &mut Vec<Entry>,
    row: &Row,
    seen: &Seen,
    reply: Reply,
    amounts: &Amounts,
)
    requires sees { Sees (asked_of (row_of row.now)) seen.now }
    requires moves { CanMoveEach seen.now (transfers_of amounts.now) }
    requires room { vec_len entries.old < vec_capacity entries.old }
    ensures entries { entries.new.items
        ≡ entries.old.items ++ entry_by (row_of row.entry.now) seen.now reply (transfers_of amounts.now) ∷ [] }
    ensures calls { calls.new.items ≡ calls.old.items ++ (
      row.entry.now,
      record {
        seen = seen.now;
        entry = entry_by (row_of row.entry.now) seen.now reply (transfers_of amounts.now);
      },
    ) ∷ [] }
    ensures reserved { vec_capacity entries.old ≤ vec_capacity entries.new }
{
    let place = entries.len();
    entries.push_reserved(Entry {
        lane: row.lane,
        row: row.number,
        reply,
        moves: [None, None, None, None],
    });
    let entry = &mut entries[place];
    put_moves(row, seen, amounts, &mut entry.moves);
    *calls = calls.and(
        row,
        &CallRecord {
            seen: *seen,
            entry: *entry,
        },
    );
}
