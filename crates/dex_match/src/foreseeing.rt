//! What a new order would do, before anything is changed.

ghost use Rattle.std.specs.Prelude.{◌≡◌, ◌+◌, ◌-◌, ◌^◌, ◌<◌, ◌≤◌, ◌==◌, length, min, None, nat_le, if◌then◌else◌};
ghost use Rattle.dex_laws.specs.Locks.{locked};
ghost use Rattle.dex_match.specs.Deciding.{Foretells, standing_at};
ghost use Rattle.dex_match.specs.OrderTerms.{order_of};
ghost use Rattle.dex_orders.specs.OrdersAccount.{IsOpen, account_of};
ghost use Rattle.dex_types.specs.Reasons.{ask_too_large};
ghost use Rattle.dex_types.specs.Side as book;
ghost use Rattle.dex_types.specs.Trader.{balance};

use crate::order_outlook::outlook;
use crate::order_plan::OrderPlan;
use crate::order_refusals::lowest_slot;
use crate::order_terms::{Taker, lock_of};
use dex_fills::Sums;
use dex_fills::prices::id_of;
use dex_orders::OrdersRef;
use dex_types::{Lots, Side, SideRead};

/// What a new order would do: its plan, the id of the own order at which it would have to abort, and the sums of its
/// fills.
#[derive(Clone, Copy)]
pub(crate) struct OrderProspect {
    pub(crate) plan: OrderPlan,
    pub(crate) aborts: Option<u128>,
    pub(crate) sums: Sums,
}

/// The native amount of a lock that the account's free funds of the locked token do not pay.
fn deposit_of(side: Side, orders: &OrdersRef<'_>, lock: u64) -> u64
    requires { IsOpen orders.now.bytes.now }
    ensures { result ≡ lock - min (balance (book.locked_token side) (account_of orders.now.bytes.now)).free lock }
{
    let funds = orders.funds();
    let free = match side {
        Side::Bid => funds.pc_free,
        Side::Ask => funds.coin_free,
    };
    lock.saturating_sub(free)
}

/// All the room of a side is taken.
fn is_full<B: SideRead>(own: &B) -> bool
    requires { B.holds own.now }
    ensures { result ≡ nat_le (B.room own.now) (length (B.orders own.now)) }
{
    own.capacity() <= own.count()
}

/// How many events a new order has besides those of the orders that it meets: one of all its fills, where they moved
/// quote, and a last one, where it does not rest or another order has to leave for it.
fn own_events(pc: u64, rested: u64, is_full: bool) -> u32
    ensures value { result ≡ (if pc == 0 then 0 else 1) + (if rested == 0 then 1 else (if is_full then 1 else 0)) }
    ensures few { result ≤ 2 }
{
    let fills = if pc == 0 { 0 } else { 1 };
    let last = if rested == 0 || is_full { 1 } else { 0 };
    fills + last
}

/// What a new order with this sequence number would do, where it is no ask that is too large and the orders of the
/// other side lock less than 2^64.
pub(crate) fn foresee_order<B: SideRead, A: SideRead>(
    sizes: Lots,
    taker: Taker,
    sequence: u64,
    own: &B,
    opposite: &A,
    orders: &OrdersRef<'_>,
) -> OrderProspect
    requires own { B.holds own.now }
    requires opposite { A.holds opposite.now }
    requires account { IsOpen orders.now.bytes.now }
    requires room { 1 ≤ B.room own.now }
    requires lock { ask_too_large taker.id_side sizes taker.lots ≡ None }
    requires locks { locked (book.opposite taker.id_side) sizes (A.orders opposite.now) < 2 ^ 64 }
    ensures { Foretells result (standing_at sizes sequence (B.orders own.now) (B.room own.now)
        (A.orders opposite.now)) (account_of orders.now.bytes.now) taker }
{
    let lock = lock_of(sizes, taker);
    let outlook = outlook(sizes, taker, lock, opposite);
    let prospect = outlook.prospect;
    let sums = prospect.met.sums;
    let plan = OrderPlan {
        deposit: deposit_of(taker.id_side, orders, lock),
        needed: prospect.events + own_events(sums.pc, outlook.rested, is_full(own)),
        lots: sums.lots,
        pc: sums.pc,
        fee: outlook.fee,
        rested: outlook.rested,
        slot: lowest_slot(orders),
        id: id_of(taker.id_side, taker.price, sequence),
    };
    OrderProspect {
        plan,
        aborts: prospect.aborts,
        sums,
    }
}
