//! What a take keeps to and wants.

ghost use Rattle.std.specs.Prelude.{◌≡◌};
ghost use Rattle.dex_match.specs.OrderTerms.{order_of};
ghost use Rattle.dex_fills.specs.Taker.{demand, taking};
ghost use Rattle.dex_take.specs.TakeTerms.{bare_take};
ghost use Rattle.dex_types.specs.Take.{take_demand, take_terms};

use dex_fills::{MeetingTerms, Want};
use dex_match::Taker;
use dex_types::{Lots, OrderType, SelfTrade};

/// What a take keeps to while it meets the opposite side. It has no owner, so no order is its own and the self-trade
/// rule decides nothing.
pub fn take_terms(sizes: Lots, taker: Taker) -> MeetingTerms
    ensures keeps { taking result ≡ take_terms sizes (bare_take taker) }
    ensures sizes { result.sizes ≡ sizes }
    ensures limit { result.limit_price ≡ taker.price }
{
    MeetingTerms {
        program: taker.program,
        sizes,
        limit_price: taker.price,
        order_type: OrderType::Ioc,
        self_trade: SelfTrade::Decrement,
        owner: None,
    }
}

/// What a take wants before it meets anything: as much as a new order with the same terms.
pub(crate) fn want_of(sizes: Lots, taker: Taker) -> Want
    ensures { demand result ≡ take_demand taker.id_side sizes (bare_take taker) }
{
    dex_match::want_of(sizes, taker)
}
