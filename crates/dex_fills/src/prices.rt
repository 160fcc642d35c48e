ghost use Rattle.std.specs.Prelude.{◌≡◌, ◌/◌, ◌≤◌};
ghost use Rattle.dex_types.specs.Side as book;

use dex_types::Side;

/// The ids of one price: their number, and the distance of two prices in an id.
const PER_PRICE: u128 = 0x1_0000_0000_0000_0000;

/// The quotient, or 0 by 0.
pub fn quotient(amount: u128, by: u128) -> u128
    ensures value { result ≡ amount / by }
    ensures at_most { result ≤ amount }
{
    if by == 0 { 0 } else { amount / by }
}

/// The price in an order id, in quote lots per base lot.
#[tactic(auto, unfolding(dex_types::specs::Side::price_of))]
pub fn price_of(id: u128) -> u64
    ensures { result ≡ book.price_of id }
{
    (id / PER_PRICE) as u64
}

/// The id of an order with this price and sequence number.
#[tactic(auto, unfolding(dex_types::specs::Side::id_of))]
pub fn id_of(side: Side, price: u64, sequence: u64) -> u128
    ensures { result ≡ book.id_of side price sequence }
{
    let first = price as u128 * PER_PRICE;
    match side {
        Side::Bid => first + (u64::MAX - sequence) as u128,
        Side::Ask => first + sequence as u128,
    }
}

/// An order of this side and limit price crosses an opposite order of the price.
pub fn crosses(side: Side, limit: u64, price: u64) -> bool
    ensures { result ≡ book.crosses side limit price }
{
    match side {
        Side::Bid => price <= limit,
        Side::Ask => limit <= price,
    }
}

/// An order with the first id comes before one with the second.
pub fn precedes(side: Side, id: u128, other: u128) -> bool
    ensures { result ≡ book.precedes side id other }
{
    match side {
        Side::Bid => other < id,
        Side::Ask => id < other,
    }
}
