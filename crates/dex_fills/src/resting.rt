//! How much of an order may rest.

ghost use Rattle.std.specs.Prelude.{◌≡◌};
ghost use Rattle.dex_types.specs.Posting as posting;

use crate::prices::quotient;
use dex_types::{Lots, OrderType, Side};

/// Orders of this type can rest.
pub fn can_rest(order_type: OrderType) -> bool
    ensures { result ≡ posting.can_rest order_type }
{
    match order_type {
        OrderType::Ioc => false,
        _ => true,
    }
}

/// The lots that rest where the order may.
pub fn affordable(side: Side, sizes: Lots, price: u64, lots: u64, lock_left: u64) -> u64
    ensures { result ≡ posting.affordable side sizes price lots lock_left }
{
    match side {
        Side::Bid => lots.min(quotient(lock_left as u128, price as u128 * sizes.pc as u128) as u64),
        Side::Ask => lots,
    }
}
