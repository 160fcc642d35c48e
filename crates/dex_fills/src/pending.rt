//! What makers' fills that are pending are still to take off their owners' totals.

ghost use Rattle.std.specs.Prelude.{◌≡◌, ◌+◌, ◌-◌, ◌*◌, ◌^◌, ◌<◌, ◌≤◌, if◌then◌else◌, ◌==◌};
ghost use Rattle.dex_ring.specs.Ring.{IsEventQueue, ring_of};
ghost use Rattle.dex_types.specs.Side.{Coin, Pc, by_side};
ghost use Rattle.dex_types.specs.Solvency.{all_leaving};

use crate::wants::Sums;
use dex_ring::{PendingFills, RingRef};
use dex_types::{Event, EventFlags, Lots, Side};

/// The flags of the fill of a resting ask, whose owner pays base.
const ASK_FILL: u8 = EventFlags::MAKER_FILL_OF_ASK.0;

/// The flags of the fill of a resting bid, whose owner pays quote.
const BID_FILL: u8 = EventFlags::MAKER_FILL_OF_BID.0;

/// The native amount that the owner pays by an event with these flags, or 0 by another one.
fn paid_by(event: Event, flags: u8) -> u64
    ensures { result ≡ (if event.flags == flags then event.paid else 0) }
{
    if event.flags == flags { event.paid } else { 0 }
}

/// What the pending fills of an event queue are still to take off totals. Each event is read once.
pub fn pending_fills(ring: &RingRef<'_>) -> PendingFills
    requires { IsEventQueue ring.now.bytes.now }
    ensures coin { result.coin ≡ all_leaving Coin (ring_of ring.now.bytes.now).events }
    ensures pc { result.pc ≡ all_leaving Pc (ring_of ring.now.bytes.now).events }
    ensures coin_small { result.coin < 2 ^ 80 }
    ensures pc_small { result.pc < 2 ^ 80 }
{
    let mut coin: u128 = 0;
    let mut pc: u128 = 0;
    for number in 0..ring.len() {
        let event = ring.at(number);
        coin += u128::from(paid_by(event, ASK_FILL));
        pc += u128::from(paid_by(event, BID_FILL));
    }
    PendingFills { coin, pc }
}

/// What pending makers' fills are still to take off totals, with those of a taker's fills after them: a bid's makers
/// pay base, and an ask's makers pay quote less their rebates.
pub fn with_fills(pending: PendingFills, side: Side, sizes: Lots, sums: Sums) -> PendingFills
    requires base { sums.lots * sizes.coin < 2 ^ 64 }
    requires rebates { sums.rebates ≤ sums.pc }
    requires coin { pending.coin < 2 ^ 80 }
    requires pc { pending.pc < 2 ^ 80 }
    ensures coin { result.coin ≡ pending.coin + by_side side (sums.lots * sizes.coin) 0 }
    ensures pc { result.pc ≡ pending.pc + by_side side 0 (sums.pc - sums.rebates) }
    ensures coin_small { result.coin < 2 ^ 81 }
    ensures pc_small { result.pc < 2 ^ 81 }
{
    match side {
        Side::Bid => PendingFills {
            coin: pending.coin + u128::from(sums.lots * sizes.coin),
            pc: pending.pc,
        },
        Side::Ask => PendingFills {
            coin: pending.coin,
            pc: pending.pc + u128::from(sums.pc - sums.rebates),
        },
    }
}
