//! What events are still to take off totals.

/// What makers' fills are still to take off their owners' totals, in native base and in native quote.
#[derive(Clone, Copy, Debug, PartialEq, Eq)]
pub struct PendingFills {
    pub coin: u128,
    pub pc: u128,
}
