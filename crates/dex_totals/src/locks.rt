//! What resting orders lock, in native units: bids of quote, asks of base.

ghost use Rattle.std.specs.Prelude.{◌≡◌};
ghost use Rattle.dex_types.specs.Owed as book;
ghost use Rattle.dex_types.specs.Totals.{total};
ghost use Rattle.dex_totals.specs.Sums.{capped};

use dex_types::{Lots, Order, Side};

const PER_PRICE: u128 = 1 << 64;

/// The native amount that a resting order locks.
#[tactic(auto, unfolding(dex_types::specs::Side::price_of))]
pub fn lock_of(side: Side, sizes: Lots, order: &Order) -> u128
    ensures { result ≡ capped (book.order_lock side sizes order.now) }
{
    let lots = u128::from(order.lots);
    match side {
        Side::Bid => (order.id / PER_PRICE)
            .saturating_mul(lots)
            .saturating_mul(u128::from(sizes.pc)),
        Side::Ask => lots * u128::from(sizes.coin),
    }
}

/// What the orders of a side lock.
pub fn sum_locked(orders: &[Order], side: Side, sizes: Lots) -> u128
    ensures { result ≡ capped (total (book.order_lock side sizes) orders.now) }
{
    let mut sum: u128 = 0;
    for place in 0..orders.len() {
        let more = lock_of(side, sizes, &orders[place]);
        sum = sum.saturating_add(more);
    }
    sum
}
