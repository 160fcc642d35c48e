//! Open-orders accounts on which rows are done.

ghost use Rattle.dex_cancel.specs.Cancelling.{named_by};
ghost use Rattle.dex_orders.specs.OrdersAccount.{IsBlank};
ghost use Rattle.dex_step.specs.CancelActs.{CanCancel, HasCancelled, cancel_bytes};
ghost use Rattle.dex_step.specs.FundBytes.{
  CanChange,
  CanClose,
  CanSettle,
  HasChanged,
  HasClosed,
  HasOpened,
  HasSettled,
};
ghost use Rattle.dex_step.specs.OrderActs.{CanOrderAmong, HasOrderedAmong, among};
ghost use Rattle.std.specs.Prelude.{◌≡◌};

use crate::acting_cancels::cancel_among;
use crate::acting_funds::{
    close_flat, close_owned, init_flat, init_owned, settle_flat, settle_owned,
};
use crate::acting_orders::{order_flat, order_owned};
use dex_cancel::CancelWhat;
use dex_crank::PaysOrders;
use dex_lent::{FlatOrders, OwnedOrders};
use dex_match::{OrderPlan, Taker};
use dex_settle::SettlePlan;
use dex_types::{Address, Lots, Reply};

/// Open-orders accounts on which rows are done in place: what each kind of row does to the one account that it names.
/// No call takes memory.
pub trait StepsOrders: PaysOrders {
    /// A new order of the taker's account, as it was decided, on the other bytes of its market.
    fn order(
        &mut self,
        plan: &OrderPlan,
        taker: Taker,
        market: &mut [u8],
        requests: &mut [u8],
        events: &mut [u8],
        own: &mut [u8],
        opposite: &mut [u8],
    ) -> Reply
        requires { CanOrderAmong plan.now taker
            (among market.old requests.old events.old own.old opposite.old (Self.held self.old)) }
        ensures does { HasOrderedAmong taker result
            (among market.old requests.old events.old own.old opposite.old (Self.held self.old))
            (among market.new requests.new events.new own.new opposite.new (Self.held self.new)) }
        ensures place { Self.place self.new ≡ Self.place self.old };

    /// Settling the owner's account, on the bytes of the market account.
    fn settle(&mut self, plan: &SettlePlan, owner: Address, market: &mut [u8])
        requires { CanChange owner (CanSettle plan.now market.old) (Self.held self.old) }
        ensures does { HasChanged owner (HasSettled plan.entry.now market.old market.new)
            (Self.held self.old) (Self.held self.new) }
        ensures place { Self.place self.new ≡ Self.place self.old };

    /// A cancel of the owner's orders, on the bytes of the sides and of the event queue. It answers how many it took;
    /// the accounts stay.
    fn cancel(
        &mut self,
        what: &CancelWhat,
        owner: Address,
        sizes: Lots,
        bids: &mut [u8],
        asks: &mut [u8],
        events: &mut [u8],
    ) -> u32
        requires { CanChange owner (λ account. CanCancel (named_by what.now) owner account
            (cancel_bytes sizes bids.old asks.old events.old)) (Self.held self.old) }
        ensures does { HasCancelled (named_by what.entry.now) owner result
            (cancel_bytes sizes bids.old asks.old events.old) (cancel_bytes sizes bids.new asks.new events.new) }
        ensures held { Self.held self.new ≡ Self.held self.old }
        ensures place { Self.place self.new ≡ Self.place self.old };

    /// Opening the owner's account, on the market of this address for this person.
    fn init(&mut self, owner: Address, market: Address, person: Address)
        requires { CanChange owner IsBlank (Self.held self.old) }
        ensures does { HasChanged owner (HasOpened market person) (Self.held self.old) (Self.held self.new) }
        ensures place { Self.place self.new ≡ Self.place self.old };

    /// Closing the owner's account.
    fn close(&mut self, owner: Address)
        requires { CanChange owner CanClose (Self.held self.old) }
        ensures does { HasChanged owner HasClosed (Self.held self.old) (Self.held self.new) }
        ensures place { Self.place self.new ≡ Self.place self.old };
}

impl<'a> StepsOrders for OwnedOrders<'a> {
    fn order(
        &mut self,
        plan: &OrderPlan,
        taker: Taker,
        market: &mut [u8],
        requests: &mut [u8],
        events: &mut [u8],
        own: &mut [u8],
        opposite: &mut [u8],
    ) -> Reply {
        order_owned(
            plan,
            taker,
            market,
            requests,
            events,
            self.accounts,
            own,
            opposite,
        )
    }

    fn settle(&mut self, plan: &SettlePlan, owner: Address, market: &mut [u8]) {
        settle_owned(plan, owner, market, self.accounts);
    }

    fn cancel(
        &mut self,
        what: &CancelWhat,
        owner: Address,
        sizes: Lots,
        bids: &mut [u8],
        asks: &mut [u8],
        events: &mut [u8],
    ) -> u32 {
        cancel_among(what, owner, self, sizes, bids, asks, events)
    }

    fn init(&mut self, owner: Address, market: Address, person: Address) {
        init_owned(owner, market, person, self.accounts);
    }

    fn close(&mut self, owner: Address) {
        close_owned(owner, self.accounts);
    }
}

impl<'a> StepsOrders for FlatOrders<'a> {
    fn order(
        &mut self,
        plan: &OrderPlan,
        taker: Taker,
        market: &mut [u8],
        requests: &mut [u8],
        events: &mut [u8],
        own: &mut [u8],
        opposite: &mut [u8],
    ) -> Reply {
        order_flat(
            plan, taker, market, requests, events, self.bytes, own, opposite,
        )
    }

    fn settle(&mut self, plan: &SettlePlan, owner: Address, market: &mut [u8]) {
        settle_flat(plan, owner, market, self.bytes);
    }

    fn cancel(
        &mut self,
        what: &CancelWhat,
        owner: Address,
        sizes: Lots,
        bids: &mut [u8],
        asks: &mut [u8],
        events: &mut [u8],
    ) -> u32 {
        cancel_among(what, owner, self, sizes, bids, asks, events)
    }

    fn init(&mut self, owner: Address, market: Address, person: Address) {
        init_flat(owner, market, person, self.bytes);
    }

    fn close(&mut self, owner: Address) {
        close_flat(owner, self.bytes);
    }
}
