ghost use Rattle.std.specs.Prelude.{◌≡◌, ◌+◌, ◌*◌, ◌^◌, ◌<◌, ◌≤◌, ◌++◌, ◌∷◌, [], length, ◌-◌, ◌==◌, if◌then◌else◌};
ghost use Rattle.dex_types.specs.Fees as fees;
ghost use Rattle.dex_types.specs.Meeting as meeting;
ghost use Rattle.dex_types.specs.Side as book;
ghost use Rattle.dex_fills.specs.Taker.{taking, demand, fill_met};

use crate::event_kinds::EventAmounts;
use crate::prices::price_of;
use crate::taking::is_own;
use crate::wants::{MeetingTerms, Sums, Want};
use dex_fees::maker_rebate;
use dex_fees::tiers::tier_at;
use dex_types::{Lots, Order, SelfTrade, Side};

/// The native quote of lots at a price.
fn quote(sizes: Lots, price: u64, lots: u64) -> u64
    requires { price * lots * sizes.pc < 2 ^ 64 }
    ensures { result ≡ price * lots * sizes.pc }
{
    (price as u128 * lots as u128 * sizes.pc as u128) as u64
}

/// The native amount that lots at a price lock: quote for a bid, base for an ask.
pub fn lock(side: Side, sizes: Lots, price: u64, lots: u64) -> u64
    requires { book.lock side sizes price lots < 2 ^ 64 }
    ensures { result ≡ book.lock side sizes price lots }
{
    match side {
        Side::Bid => quote(sizes, price, lots),
        Side::Ask => lots * sizes.coin,
    }
}

/// A bid's budget less the quote lots of a fill; an ask spends no quote.
fn budget_after(side: Side, want: Want, order: Order, lots: u64) -> u64
    ensures { result ≡ meeting.budget_after side (demand want) order lots }
{
    match side {
        Side::Bid => (want.budget as u128).saturating_sub(
            lots as u128 * price_of(order.id) as u128,
        ) as u64,
        Side::Ask => want.budget,
    }
}

fn want_after_own(rule: SelfTrade, want: Want, lots: u64) -> Want
    ensures { demand result ≡ meeting.demand_after_own rule (demand want) lots }
{
    let matches = want.matches.saturating_sub(1);
    match rule {
        SelfTrade::CancelProvide => Want { matches, ..want },
        _ => Want {
            lots: want.lots.saturating_sub(lots),
            matches,
            ..want
        },
    }
}

/// What a taker still wants after an order lost these lots to it.
#[tactic(auto, unfolding(dex_types::specs::Meeting::demand_after))]
pub fn want_after(side: Side, taker: MeetingTerms, want: Want, order: Order, lots: u64) -> Want
    ensures { demand result ≡ meeting.demand_after side (taking taker) (demand want) order lots }
{
    if is_own(taker.owner, order) {
        want_after_own(taker.self_trade, want, lots)
    } else {
        Want {
            lots: want.lots.saturating_sub(lots),
            budget: budget_after(side, want, order, lots),
            matches: want.matches.saturating_sub(1),
        }
    }
}

/// The maker's rebate of a fill, by the tier that is stored with the order.
fn rebate_of(taker: MeetingTerms, order: Order, pc: u64) -> u64
    requires { order.tier < 7 }
    ensures value { result ≡ fees.maker_rebate taker.program (fees.tier_at order.tier) pc }
    ensures at_most_all { result ≤ pc }
{
    maker_rebate(taker.program, tier_at(order.tier), pc)
}

/// What a fill moves: base lots, and in native amounts base, quote and the maker's rebate.
#[derive(Clone, Copy)]
pub struct Fill {
    pub lots: u64,
    pub base: u64,
    pub pc: u64,
    pub rebate: u64,
}

/// What lots of an order that fill move.
pub(crate) fn fill_of(taker: MeetingTerms, order: Order, lots: u64) -> Fill
    requires tier { order.tier < 7 }
    requires base { lots * taker.sizes.coin < 2 ^ 64 }
    requires pc { meeting.fill_pc taker.sizes order lots < 2 ^ 64 }
    ensures lots { result.lots ≡ lots }
    ensures base { result.base ≡ lots * taker.sizes.coin }
    ensures pc { result.pc ≡ meeting.fill_pc taker.sizes order lots }
    ensures rebate { result.rebate ≡ meeting.fill_rebate (taking taker) order lots }
    ensures small { result.rebate ≤ result.pc }
{
    let pc = quote(taker.sizes, price_of(order.id), lots);
    Fill {
        lots,
        base: lots * taker.sizes.coin,
        pc,
        rebate: rebate_of(taker, order, pc),
    }
}

/// What an order that was met and lost these lots moves: nothing where it is the taker's own.
pub fn fill_met(taker: MeetingTerms, order: Order, lots: u64) -> Fill
    requires tier { order.tier < 7 }
    requires base { meeting.met_lots (taking taker) order lots * taker.sizes.coin < 2 ^ 64 }
    requires pc { meeting.met_pc (taking taker) order lots < 2 ^ 64 }
    ensures fill { result ≡ fill_met taker order lots }
    ensures small { result.rebate ≤ result.pc }
{
    if is_own(taker.owner, order) {
        return Fill {
            lots: 0,
            base: 0,
            pc: 0,
            rebate: 0,
        };
    }
    fill_of(taker, order, lots)
}

/// The amounts of a maker's fill: an ask is owed quote and the rebate, a bid pays quote less the rebate.
pub(crate) fn maker_amounts(side: Side, fill: Fill) -> EventAmounts
    requires rebate { fill.rebate ≤ fill.pc }
    requires fits { side ≡ Side.Ask → fill.pc + fill.rebate < 2 ^ 64 }
    ensures bid { side ≡ Side.Bid → result ≡ record {
      released = fill.base;
      paid = fill.pc - fill.rebate;
      fee_or_rebate = fill.rebate;
    } }
    ensures ask { side ≡ Side.Ask → result ≡ record {
      released = fill.pc + fill.rebate;
      paid = fill.base;
      fee_or_rebate = fill.rebate;
    } }
{
    match side {
        Side::Bid => EventAmounts {
            released: fill.base,
            paid: fill.pc - fill.rebate,
            fee_or_rebate: fill.rebate,
        },
        Side::Ask => EventAmounts {
            released: fill.pc + fill.rebate,
            paid: fill.base,
            fee_or_rebate: fill.rebate,
        },
    }
}

/// The sums with one more fill.
pub(crate) fn sums_with(sums: Sums, fill: Fill) -> Sums
    requires lots { sums.lots + fill.lots < 2 ^ 64 }
    requires pc { sums.pc + fill.pc < 2 ^ 64 }
    requires rebates { sums.rebates + fill.rebate < 2 ^ 64 }
    ensures { result ≡ record {
      lots = sums.lots + fill.lots;
      pc = sums.pc + fill.pc;
      rebates = sums.rebates + fill.rebate;
    } }
{
    Sums {
        lots: sums.lots + fill.lots,
        pc: sums.pc + fill.pc,
        rebates: sums.rebates + fill.rebate,
    }
}
