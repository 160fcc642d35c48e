//! What deciding a take reads.

ghost use Rattle.std.specs.Prelude.{◌≡◌};

use dex_market::MarketRef;
use dex_ring::RingRef;
use dex_types::{Seen, SideRead};

/// What deciding a take reads: the market account, the side of the book that it meets, the event queue, and the wallets
/// that its row names.
#[derive(Clone, Copy)]
pub struct TakeInput<'a, B> {
    pub market: MarketRef<'a>,
    pub opposite: &'a B,
    pub ring: RingRef<'a>,
    pub seen: &'a Seen,
}

/// What is lent, as one value.
pub fn gathered<'a, B: SideRead>(
    market: MarketRef<'a>,
    opposite: &'a B,
    ring: RingRef<'a>,
    seen: &'a Seen,
) -> TakeInput<'a, B>
    ensures market { result.market.bytes.now ≡ market.entry.bytes.now }
    ensures opposite { result.opposite.now ≡ opposite.entry.now }
    ensures ring { result.ring.bytes.now ≡ ring.entry.bytes.now }
    ensures seen { result.seen.now ≡ seen.entry.now }
{
    TakeInput {
        market,
        opposite,
        ring,
        seen,
    }
}
