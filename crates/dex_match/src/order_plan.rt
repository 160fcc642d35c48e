//! What was decided of a new order.

use dex_ring::PendingFills;

/// What an accepted new order does: the native amount from the payer's wallet into the vault, the number of its events,
/// the base lots and the native quote that fill, its fee in native quote, the base lots that rest, its slot and its id.
#[derive(Clone, Copy, Debug, PartialEq, Eq)]
pub struct OrderPlan {
    pub deposit: u64,
    pub needed: u32,
    pub lots: u64,
    pub pc: u64,
    pub fee: u64,
    pub rested: u64,
    pub slot: u8,
    pub id: u128,
}

/// A plan, and what makers' fills are still to take off totals once those that the plan's order fills are pending too.
#[derive(Clone, Copy, Debug, PartialEq, Eq)]
pub struct Decided {
    pub plan: OrderPlan,
    pub pending: PendingFills,
}
