//! What came of meeting the opposite side so far.

ghost use Rattle.std.specs.Prelude.{◌≡◌, ◌+◌, ◌*◌, ◌^◌, ◌<◌};
ghost use Rattle.dex_types.specs.Meeting as meeting;
ghost use Rattle.dex_fills.specs.Taker.{taking, demand, fill_met};

use crate::fills::{Fill, fill_met, sums_with, want_after};
use crate::wants::{MeetingTerms, Sums, Want};
use dex_types::{Order, Side};

/// What came of meeting the opposite side: what the taker still wants, and the sums of its fills.
#[derive(Clone, Copy)]
pub struct Met {
    pub want: Want,
    pub sums: Sums,
}

/// What came of meeting, with one more order that lost these lots by this fill.
pub(crate) fn met_with(
    side: Side,
    taker: MeetingTerms,
    met: Met,
    order: Order,
    lots: u64,
    fill: Fill,
) -> Met
    requires fill { fill ≡ fill_met taker order lots }
    requires lots { met.sums.lots + fill.lots < 2 ^ 64 }
    requires pc { met.sums.pc + fill.pc < 2 ^ 64 }
    requires rebates { met.sums.rebates + fill.rebate < 2 ^ 64 }
    ensures want { demand result.want ≡ meeting.demand_after side (taking taker) (demand met.want) order lots }
    ensures lots { result.sums.lots ≡ met.sums.lots + meeting.met_lots (taking taker) order lots }
    ensures pc { result.sums.pc ≡ met.sums.pc + meeting.met_pc (taking taker) order lots }
    ensures rebates { result.sums.rebates ≡ met.sums.rebates + meeting.met_rebate (taking taker) order lots }
{
    Met {
        want: want_after(side, taker, met.want, order, lots),
        sums: sums_with(met.sums, fill),
    }
}

/// What came of meeting, with one more order that lost these lots.
pub(crate) fn met_after(side: Side, taker: MeetingTerms, met: Met, order: Order, lots: u64) -> Met
    requires tier { order.tier < 7 }
    requires lots { met.sums.lots + meeting.met_lots (taking taker) order lots < 2 ^ 64 }
    requires pc { met.sums.pc + meeting.met_pc (taking taker) order lots < 2 ^ 64 }
    requires base { meeting.met_lots (taking taker) order lots * taker.sizes.coin < 2 ^ 64 }
    requires rebates { met.sums.rebates + meeting.met_rebate (taking taker) order lots < 2 ^ 64 }
    ensures want { demand result.want ≡ meeting.demand_after side (taking taker) (demand met.want) order lots }
    ensures lots { result.sums.lots ≡ met.sums.lots + meeting.met_lots (taking taker) order lots }
    ensures pc { result.sums.pc ≡ met.sums.pc + meeting.met_pc (taking taker) order lots }
    ensures rebates { result.sums.rebates ≡ met.sums.rebates + meeting.met_rebate (taking taker) order lots }
{
    let fill = fill_met(taker, order, lots);
    met_with(side, taker, met, order, lots, fill)
}
