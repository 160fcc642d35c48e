//! What deciding a new order reads.

ghost use Rattle.std.specs.Prelude.{◌≡◌};

use dex_market::{MarketRef, RequestRef};
use dex_orders::OrdersRef;
use dex_ring::RingRef;
use dex_types::SideRead;

/// What deciding a new order reads: the market account, its request queue and its event queue, the trader's open-orders
/// account, the order's own side of the book, and the opposite side, which it meets.
#[derive(Clone, Copy)]
pub struct OrderInput<'a, B, A> {
    pub market: MarketRef<'a>,
    pub requests: RequestRef<'a>,
    pub ring: RingRef<'a>,
    pub orders: OrdersRef<'a>,
    pub own: &'a B,
    pub opposite: &'a A,
}

/// What is lent, as one value.
pub fn gathered<'a, B: SideRead, A: SideRead>(
    market: MarketRef<'a>,
    requests: RequestRef<'a>,
    ring: RingRef<'a>,
    orders: OrdersRef<'a>,
    own: &'a B,
    opposite: &'a A,
) -> OrderInput<'a, B, A>
    ensures market { result.market.bytes.now ≡ market.entry.bytes.now }
    ensures requests { result.requests.bytes.now ≡ requests.entry.bytes.now }
    ensures ring { result.ring.bytes.now ≡ ring.entry.bytes.now }
    ensures orders { result.orders.bytes.now ≡ orders.entry.bytes.now }
    ensures own { result.own.now ≡ own.entry.now }
    ensures opposite { result.opposite.now ≡ opposite.entry.now }
{
    OrderInput {
        market,
        requests,
        ring,
        orders,
        own,
        opposite,
    }
}
