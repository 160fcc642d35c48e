//! A new order of a trader, as it is stated, and what its terms come to.

ghost use Rattle.std.specs.Prelude.{◌≡◌, ◌<◌, ◌^◌};
ghost use Rattle.dex_match.specs.OrderTerms.{order_of};
ghost use Rattle.dex_fills.specs.Taker.{taking, demand};
ghost use Rattle.dex_types.specs.NewOrder as orders;

use dex_fees::spendable;
use dex_fills::prices::quotient;
use dex_fills::{MeetingTerms, Want};
use dex_types::{Address, Lots, OrderType, Program, SelfTrade, Side, Tier};

/// A new order of a trader: its side, its limit price in quote lots per base lot, its base lots, the native quote that
/// a bid may use with its fee, how many orders it may meet, the trader's open-orders account, the clock, and the last
/// clock at which it is taken.
#[derive(Clone, Copy, Debug)]
pub struct Taker {
    pub id_side: Side,
    pub price: u64,
    pub lots: u64,
    pub lock: u64,
    pub self_trade: SelfTrade,
    pub order_type: OrderType,
    pub client: u64,
    pub limit: u16,
    pub tier: Tier,
    pub account: Address,
    pub now: i64,
    pub max_ts: Option<i64>,
    pub program: Program,
}

/// The native amount that a new order locks, which 64 bits hold.
pub(crate) fn lock_of(sizes: Lots, taker: Taker) -> u64
    requires { orders.full_lock taker.id_side sizes (order_of taker) < 2 ^ 64 }
    ensures { result ≡ orders.full_lock taker.id_side sizes (order_of taker) }
{
    match taker.id_side {
        Side::Bid => taker.lock,
        Side::Ask => taker.lots * sizes.coin,
    }
}

/// The quote lots that a new bid can spend, with its fee covered.
fn budget_of(sizes: Lots, taker: Taker) -> u64
    ensures { result ≡ orders.budget taker.id_side sizes (order_of taker) }
{
    match taker.id_side {
        Side::Bid => quotient(
            spendable(taker.program, taker.tier, taker.lock) as u128,
            sizes.pc as u128,
        ) as u64,
        Side::Ask => 0,
    }
}

/// What a new order keeps to while it meets the opposite side.
pub fn terms_of(sizes: Lots, taker: Taker) -> MeetingTerms
    ensures keeps { taking result ≡ orders.terms_of sizes (order_of taker) }
    ensures sizes { result.sizes ≡ sizes }
    ensures limit { result.limit_price ≡ taker.price }
{
    MeetingTerms {
        program: taker.program,
        sizes,
        limit_price: taker.price,
        order_type: taker.order_type,
        self_trade: taker.self_trade,
        owner: Some(taker.account),
    }
}

/// What a new order wants before it meets anything.
pub fn want_of(sizes: Lots, taker: Taker) -> Want
    ensures { demand result ≡ orders.demand_of taker.id_side sizes (order_of taker) }
{
    Want {
        lots: taker.lots,
        budget: budget_of(sizes, taker),
        matches: taker.limit,
    }
}
