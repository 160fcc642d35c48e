//! What a new order moves of its trader's funds, and the slot that it takes.

ghost use Rattle.std.specs.Prelude.{◌≡◌, ◌<◌, ◌^◌, None, slice_index_or, slice_set, Some};
ghost use Rattle.dex_match.specs.Applying as applying;
ghost use Rattle.dex_match.specs.OrderTerms.{order_of};
ghost use Rattle.dex_orders.specs.OrdersAccount.{HasNoOrder, IsOpen, account_of, added, funded, funds_of, market_of, with_funds};
ghost use Rattle.dex_types.specs.NewOrder as orders;

use crate::order_plan::OrderPlan;
use crate::order_terms::{Taker, lock_of};
use dex_fills::event_kinds::EventAmounts;
use dex_fills::fills::lock;
use dex_orders::{Funds, OrdersView};
use dex_types::{Lots, Side};

/// What a new order moves of its trader's funds, in native amounts: of the token that it locks what was free and is
/// locked, what of its lock the fills leave, and what of that stays locked; of the other token what the fills bring in.
#[derive(Clone, Copy)]
pub struct Moves {
    pub from_free: u64,
    pub left: u64,
    pub locked: u64,
    pub got: u64,
}

/// The amounts of the event of all fills: what they bring in, what they take from the lock, and the fee.
pub(crate) fn fill_amounts(sizes: Lots, taker: Taker, plan: &OrderPlan) -> EventAmounts
    requires { applying.CanMove taker.id_side sizes (order_of taker) plan.now }
    ensures { result ≡ record {
      released = applying.got_by taker.id_side sizes plan.now;
      paid = applying.spent_by taker.id_side sizes plan.now;
      fee_or_rebate = plan.now.fee;
    } }
{
    match taker.id_side {
        Side::Bid => EventAmounts {
            released: plan.lots * sizes.coin,
            paid: plan.pc + plan.fee,
            fee_or_rebate: plan.fee,
        },
        Side::Ask => EventAmounts {
            released: plan.pc - plan.fee,
            paid: plan.lots * sizes.coin,
            fee_or_rebate: plan.fee,
        },
    }
}

/// What a plan moves of its trader's funds.
pub(crate) fn moves_by(sizes: Lots, taker: Taker, plan: &OrderPlan) -> Moves
    requires { applying.CanMove taker.id_side sizes (order_of taker) plan.now }
    ensures { result ≡ applying.moves_by taker.id_side sizes (order_of taker) plan.now }
{
    let whole = lock_of(sizes, taker);
    let amounts = fill_amounts(sizes, taker, plan);
    Moves {
        from_free: whole - plan.deposit,
        left: whole - amounts.paid,
        locked: lock(taker.id_side, sizes, taker.price, plan.rested),
        got: amounts.released,
    }
}

/// The funds after a new order: its lock is taken from what is free and from the deposit, the fills are paid, and all
/// that neither fills nor rests is free.
fn funds_with(side: Side, moves: Moves, funds: Funds) -> Funds
    requires { applying.CanPay side moves funds }
    ensures { result ≡ applying.funds_with side moves funds }
{
    match side {
        Side::Bid => Funds {
            coin_free: funds.coin_free + moves.got,
            coin_total: funds.coin_total + moves.got,
            pc_free: funds.pc_free - moves.from_free + (moves.left - moves.locked),
            pc_total: funds.pc_total - moves.from_free + moves.left,
            referrer: funds.referrer,
        },
        Side::Ask => Funds {
            coin_free: funds.coin_free - moves.from_free + (moves.left - moves.locked),
            coin_total: funds.coin_total - moves.from_free + moves.left,
            pc_free: funds.pc_free + moves.got,
            pc_total: funds.pc_total + moves.got,
            referrer: funds.referrer,
        },
    }
}

/// Takes the plan's slot of the account for the order, and moves the funds.
pub(crate) fn pay(plan: &OrderPlan, taker: Taker, moves: Moves, orders: &mut OrdersView<'_>)
    // The slot is free, no slot holds the order's id, and the funds pay.
    requires accepted { IsOpen orders.old.bytes.now }
    requires slot { plan.now.slot < 128 }
    requires free { slice_index_or (account_of orders.old.bytes.now).slots plan.now.slot None ≡ None }
    requires fresh { HasNoOrder plan.now.id taker.id_side (account_of orders.old.bytes.now).slots }
    requires can_pay { applying.CanPay taker.id_side moves (funds_of (account_of orders.old.bytes.now)) }

    // The slot holds the order, and the funds are moved, in the bytes and as they are read.
    ensures place { orders.new.bytes.ghost_name ≡ orders.old.bytes.ghost_name }
    ensures bytes { orders.new.bytes.now ≡ funded (added orders.old.bytes.now plan.now.slot plan.now.id taker.id_side
        taker.client)
        (applying.funds_with taker.id_side moves (funds_of (account_of orders.old.bytes.now))) }
    ensures market { market_of orders.new.bytes.now ≡ market_of orders.old.bytes.now }
    ensures words { account_of orders.new.bytes.now
        ≡ with_funds (applying.funds_with taker.id_side moves (funds_of (account_of orders.old.bytes.now)))
        (record (account_of orders.old.bytes.now) {
          slots = slice_set (account_of orders.old.bytes.now).slots plan.now.slot
              (Some (record { id = plan.now.id; side = taker.id_side; client = taker.client }));
        }) }
    ensures accepted { IsOpen orders.new.bytes.now }
{
    let funds = funds_with(taker.id_side, moves, orders.funds());
    orders.add(plan.slot, plan.id, taker.id_side, taker.client);
    orders.set_funds(funds);
}
