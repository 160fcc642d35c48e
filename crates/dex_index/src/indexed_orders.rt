//! Open-orders accounts that own their bytes, lent with an index of them.

ghost use Rattle.std.specs.Prelude.{map};
ghost use Rattle.dex_types.specs.Accounts.{orders_account_of};
ghost use Rattle.dex_index.specs.Reached.{reached_by};

use crate::index::{AccountIndex, find_bytes};
use crate::ordering::{cancel_indexed, order_indexed};
use crate::paying::pay_indexed;
use crate::settling::{close_indexed, init_indexed, settle_indexed};
use dex_cancel::CancelWhat;
use dex_crank::PaysOrders;
use dex_lent::OrdersAccounts;
use dex_match::{OrderPlan, Taker};
use dex_settle::SettlePlan;
use dex_step::StepsOrders;
use dex_types::{Address, Event, Lots, OrdersAccount, Reply};

/// Accounts that each own their bytes, with an index of them. They are those to which the index leads: all, where it is
/// the accounts' own.
#[derive(Drop)]
pub struct IndexedOrders<'a, 'i> {
    pub accounts: &'a mut [OrdersAccount],
    pub index: &'i AccountIndex,
}

impl<'a, 'i> OrdersAccounts for IndexedOrders<'a, 'i> {
    ghost held = { λ orders. reached_by orders.index.now (map orders_account_of orders.accounts.now) };

    ghost place = { λ orders. orders.accounts.ghost_name };

    fn find(&self, address: Address) -> Option<&[u8]> {
        find_bytes(self.index, self.accounts, address)
    }
}

impl<'a, 'i> PaysOrders for IndexedOrders<'a, 'i> {
    fn pay_owner(&mut self, event: &Event) {
        pay_indexed(self.index, self.accounts, event);
    }
}

impl<'a, 'i> StepsOrders for IndexedOrders<'a, 'i> {
    fn order(
        &mut self,
        plan: &OrderPlan,
        taker: Taker,
        market: &mut [u8],
        requests: &mut [u8],
        events: &mut [u8],
        own: &mut [u8],
        opposite: &mut [u8],
    ) -> Reply {
        order_indexed(
            self.index,
            self.accounts,
            plan,
            taker,
            market,
            requests,
            events,
            own,
            opposite,
        )
    }

    fn settle(&mut self, plan: &SettlePlan, owner: Address, market: &mut [u8]) {
        settle_indexed(self.index, self.accounts, plan, owner, market);
    }

    fn cancel(
        &mut self,
        what: &CancelWhat,
        owner: Address,
        sizes: Lots,
        bids: &mut [u8],
        asks: &mut [u8],
        events: &mut [u8],
    ) -> u32 {
        cancel_indexed(
            self.index,
            self.accounts,
            what,
            owner,
            sizes,
            bids,
            asks,
            events,
        )
    }

    fn init(&mut self, owner: Address, market: Address, person: Address) {
        init_indexed(self.index, self.accounts, owner, market, person);
    }

    fn close(&mut self, owner: Address) {
        close_indexed(self.index, self.accounts, owner);
    }
}
