//! What the rules of a market read.

use dex_types::{Event, Lots, Order, OrdersAccount};

/// What the rules of a market read: its resting orders in book order, its pending events from the front, its
/// open-orders accounts, and its lot sizes.
#[derive(Clone, Copy, Debug)]
pub struct Book<'a> {
    pub bids: &'a [Order],
    pub asks: &'a [Order],
    pub events: &'a [Event],
    pub accounts: &'a [OrdersAccount],
    pub sizes: Lots,
}
