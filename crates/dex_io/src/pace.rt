//! Where a row of a lane or of a batch may be held up.

/// Called for a row before it is decided: of a lane when it has the turn of everything that it acts on, of a batch when
/// it is next on its thread. A pace promises nothing and is handed no account. Under lanes it may change which lane is
/// first, and with that the replies. No clause says when it is called or how often. Tests hold a row here, to see
/// others go on beside it.
///
/// Under lanes it may wait for a row that is next in its lane and shares no market and no wallet with this row, nor
/// with any item that waits for this row, itself or after others. In a batch it may wait for a row that is next on a
/// thread of its own at that time. Any other may wait for this row, and then neither goes on.
pub trait Pace {
    /// The row of this number is inside on this lane.
    fn inside(&self, lane: u32, row: u32);
}

/// Lets each row go on at once.
#[derive(Clone, Copy, Debug, Default, PartialEq, Eq)]
pub struct NoPace;

impl Pace for NoPace {
    fn inside(&self, _lane: u32, _row: u32) {}
}
