//! What becomes of a new order, before anything is changed.

ghost use Rattle.std.specs.Prelude.{◌≡◌, ◌+◌, ◌*◌, ◌^◌, ◌<◌, ◌≤◌, if◌then◌else◌};
ghost use Rattle.dex_laws.specs.Locks.{locked};
ghost use Rattle.dex_match.specs.OrderTerms.{order_of, meeting_with};
ghost use Rattle.dex_fills.specs.Prospects.{IsForeseen};
ghost use Rattle.dex_types.specs.Meeting.{Meeting};
ghost use Rattle.dex_types.specs.NewOrder as orders;
ghost use Rattle.dex_types.specs.Posting as posting;
ghost use Rattle.dex_types.specs.Side as book;

use crate::order_terms::{Taker, terms_of, want_of};
use dex_fees::taker_fee;
use dex_fills::resting::{affordable, can_rest};
use dex_fills::{Prospect, Sums, foresee};
use dex_types::{Lots, Side, SideRead};

/// What becomes of a new order: what it meets, its fee, the native amount that its fills take from its lock, and the
/// lots that rest.
#[derive(Clone, Copy)]
pub(crate) struct OrderOutlook {
    pub(crate) prospect: Prospect,
    pub(crate) fee: u64,
    pub(crate) spent: u64,
    pub(crate) rested: u64,
}

/// The native amount that fills take from the lock of an order: a bid pays quote and the fee, an ask pays base.
fn spent_of(side: Side, sizes: Lots, sums: Sums, fee: u64) -> u64
    requires bid { side ≡ Side.Bid → sums.pc + fee < 2 ^ 64 }
    requires ask { side ≡ Side.Ask → sums.lots * sizes.coin < 2 ^ 64 }
    ensures bid { side ≡ Side.Bid → result ≡ sums.pc + fee }
    ensures ask { side ≡ Side.Ask → result ≡ sums.lots * sizes.coin }
{
    match side {
        Side::Bid => sums.pc + fee,
        Side::Ask => sums.lots * sizes.coin,
    }
}

/// The lots that rest of an order, where so much of its lock is left.
fn rested_of(sizes: Lots, taker: Taker, prospect: Prospect, lock_left: u64) -> u64
    ensures { result ≡ (if posting.can_rest taker.order_type
        then (if prospect.crosses then 0 else posting.affordable taker.id_side sizes taker.price
        prospect.met.want.lots lock_left) else 0) }
{
    if !can_rest(taker.order_type) || prospect.crosses {
        return 0;
    }
    affordable(
        taker.id_side,
        sizes,
        taker.price,
        prospect.met.want.lots,
        lock_left,
    )
}

/// What becomes of a new order with this lock, on an opposite side.
pub(crate) fn outlook<B: SideRead>(
    sizes: Lots,
    taker: Taker,
    lock: u64,
    opposing: &B,
) -> OrderOutlook
    requires holds { B.holds opposing.now }
    requires lock { lock ≡ orders.full_lock taker.id_side sizes (order_of taker) }
    requires locks { locked (book.opposite taker.id_side) sizes (B.orders opposing.now) < 2 ^ 64 }
    ensures prospect { IsForeseen taker.id_side taker.price
        (meeting_with sizes taker (B.orders opposing.now)) result.prospect }
    ensures fee { result.fee ≡ orders.fee_of (order_of taker) (meeting_with sizes taker (B.orders opposing.now)) }
    ensures spent { result.spent ≡ orders.spent taker.id_side sizes (order_of taker)
        (meeting_with sizes taker (B.orders opposing.now)) }
    ensures rested { result.rested ≡ orders.rested taker.id_side sizes (order_of taker)
        (meeting_with sizes taker (B.orders opposing.now)) }
{
    let terms = terms_of(sizes, taker);
    let want = want_of(sizes, taker);
    let prospect = foresee(taker.id_side, terms, want, opposing);
    let fee = taker_fee(taker.program, taker.tier, prospect.met.sums.pc);
    let spent = spent_of(taker.id_side, sizes, prospect.met.sums, fee);
    OrderOutlook {
        prospect,
        fee,
        spent,
        rested: rested_of(sizes, taker, prospect, lock - spent),
    }
}
