//! What a taker would meet of a list of orders, before anything is changed.

ghost use Rattle.std.specs.Prelude.{◌≡◌, ◌+◌, ◌*◌, ◌^◌, ◌<◌, ◌≤◌, ◌∷◌, List, false, is_some};
ghost use Rattle.std.specs.List.{All};
ghost use Rattle.dex_fills.specs.Taker.{demand, met_by, taking};
ghost use Rattle.dex_types.specs.declared.orders.Order.{Order as OrderOf};
ghost use Rattle.dex_types.specs.Meeting as meeting;
ghost use Rattle.dex_types.specs.Side as book;
ghost use Rattle.dex_eager_market.specs.Foreseen.{AddsOrder, CanFill, IsForeseen, IsModest};

use dex_fills::fills::{Fill, fill_met, want_after};
use dex_fills::prices::{crosses, price_of};
use dex_fills::taking::{aborts_at, taken};
use dex_fills::{MeetingTerms, Want};
use dex_types::{Order, Side};

/// The sums of a taker's fills, in native units: base, quote, and the makers' rebates.
#[derive(Clone, Copy, Debug)]
pub struct Sums {
    pub base: u128,
    pub pc: u128,
    pub rebates: u128,
}

/// What a taker would meet: what it would still want, the sums of its fills, how many orders leave whole, how many lots
/// the next one loses, whether the best order left still crosses the limit price, and whether the taker has to abort.
#[derive(Clone, Copy)]
pub struct ListProspect {
    pub want: Want,
    pub sums: Sums,
    pub gone: usize,
    pub part: u64,
    pub crosses: bool,
    pub aborts: bool,
}

/// The sums with one more fill.
fn sums_with(sums: Sums, fill: Fill) -> Sums
    requires base { sums.base + fill.base < 2 ^ 128 }
    requires pc { sums.pc + fill.pc < 2 ^ 128 }
    requires rebates { sums.rebates + fill.rebate < 2 ^ 128 }
    ensures { result ≡ record {
      base = sums.base + fill.base;
      pc = sums.pc + fill.pc;
      rebates = sums.rebates + fill.rebate;
    } }
{
    Sums {
        base: sums.base + u128::from(fill.base),
        pc: sums.pc + u128::from(fill.pc),
        rebates: sums.rebates + u128::from(fill.rebate),
    }
}

/// What is foreseen of a taker that goes no further, with this best order left, which has lost this part.
fn ended(
    side: Side,
    taker: MeetingTerms,
    met: ListProspect,
    order: Order,
    part: u64,
) -> ListProspect
    ensures want { result.want ≡ met.want }
    ensures sums { result.sums ≡ met.sums }
    ensures gone { result.gone ≡ met.gone }
    ensures part { result.part ≡ part }
    ensures crosses { result.crosses ≡ book.crosses side taker.limit_price (book.price_of order.id) }
    ensures aborts { (others : List OrderOf) → result.aborts
        ≡ is_some (meeting.aborts_at side (taking taker) (demand met.want) (order ∷ others)) }
{
    ListProspect {
        part,
        crosses: crosses(side, taker.limit_price, price_of(order.id)),
        aborts: aborts_at(side, taker, met.want, order).is_some(),
        ..met
    }
}

/// What is foreseen with one more order that lost these lots.
fn foreseen_with(
    side: Side,
    taker: MeetingTerms,
    met: ListProspect,
    order: Order,
    lots: u64,
) -> ListProspect
    // What the order moves fits 64 bits, and the sums have room for it.
    requires tier { order.tier < 7 }
    requires base { meeting.met_lots (taking taker) order lots * taker.sizes.coin < 2 ^ 64 }
    requires pc { meeting.met_pc (taking taker) order lots < 2 ^ 64 }
    requires base_sum { met.sums.base < 2 ^ 127 }
    requires pc_sum { met.sums.pc < 2 ^ 127 }
    requires rebates_sum { met.sums.rebates < 2 ^ 127 }

    // The taker wants less, and the sums are greater by what the order moves.
    ensures want { demand result.want ≡ meeting.demand_after side (taking taker) (demand met.want) order lots }
    ensures adds { AddsOrder (taking taker) order lots met.sums result.sums }
    ensures small { result.sums.rebates ≤ met.sums.rebates + meeting.met_pc (taking taker) order lots }

    // Nothing else changes.
    ensures gone { result.gone ≡ met.gone }
    ensures part { result.part ≡ met.part }
    ensures crosses { result.crosses ≡ met.crosses }
    ensures aborts { result.aborts ≡ met.aborts }
{
    let fill = fill_met(taker, order, lots);
    ListProspect {
        want: want_after(side, taker, met.want, order, lots),
        sums: sums_with(met.sums, fill),
        ..met
    }
}

/// What a taker of the side would meet of the opposite side's orders, from the best one on.
pub fn foresee(side: Side, taker: MeetingTerms, want: Want, orders: &[Order]) -> ListProspect
    requires modest { IsModest side taker.sizes (demand want) }
    requires orders { All (CanFill (book.opposite side) taker.sizes) orders.now }
    ensures foreseen { IsForeseen side taker.sizes taker.limit_price orders.now
        (met_by side taker want orders.now) result }
    ensures base { result.sums.base < 2 ^ 81 }
    ensures pc { result.sums.pc < 2 ^ 81 }
{
    let mut met = ListProspect {
        want,
        sums: Sums {
            base: 0,
            pc: 0,
            rebates: 0,
        },
        gone: 0,
        part: 0,
        crosses: false,
        aborts: false,
    };
    'orders: while met.gone < orders.len() {
        let order = orders[met.gone];
        let lots = taken(side, taker, met.want, order);
        if lots == 0 {
            return ended(side, taker, met, order, 0);
        }
        met = foreseen_with(side, taker, met, order, lots);
        if lots < order.lots {
            let left = Order {
                lots: order.lots - lots,
                ..order
            };
            return ended(side, taker, met, left, lots);
        }
        met.gone += 1;
    }
    met
}
