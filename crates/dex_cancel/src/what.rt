//! What a cancel asks for.

use dex_types::{ClientIds, Side};

/// Which resting orders of an account a cancel takes.
#[derive(Clone, Copy, Debug, PartialEq, Eq)]
pub enum CancelWhat {
    /// The order of this id on the named side.
    ById { side: Side, id: u128 },
    /// Of the account's orders with this client id the one with the least sequence number.
    ByClient(u64),
    /// For each client id in turn, its order with the least sequence number; zeros and ids without one are passed over.
    ByClients(ClientIds),
    /// The account's first orders, up to this number: its bids in book order, then its asks in book order.
    Prune(u16),
}
