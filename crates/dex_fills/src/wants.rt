use dex_types::{Address, Lots, OrderType, Program, SelfTrade};

/// What a taker keeps to while it meets the opposite side; its limit price is in quote lots per base lot.
#[derive(Clone, Copy)]
pub struct MeetingTerms {
    pub program: Program,
    pub sizes: Lots,
    pub limit_price: u64,
    pub order_type: OrderType,
    pub self_trade: SelfTrade,
    pub owner: Option<Address>,
}

/// What a taker still wants: base lots, the quote lots that a bid can still spend, and how many orders it may still
/// meet.
#[derive(Clone, Copy)]
pub struct Want {
    pub lots: u64,
    pub budget: u64,
    pub matches: u16,
}

/// The sums of a taker's fills: base lots, native quote, and the makers' rebates in native quote.
#[derive(Clone, Copy)]
pub struct Sums {
    pub lots: u64,
    pub pc: u64,
    pub rebates: u64,
}
