//! What an instruction does.

ghost use Rattle.std.specs.Prelude.{◌≡◌, ℕ, ◌+◌, ◌^◌, map};
ghost use Rattle.dex_types.specs.declared.addresses.Address.{Address as AddressOf};
ghost use Rattle.dex_eager.specs.Eager as eager;
ghost use Rattle.dex_history.specs.Journal.{request_of};
ghost use Rattle.dex_match.specs.OrderTerms.{order_of};
ghost use Rattle.dex_take.specs.TakeTerms.{take_of};
ghost use Rattle.dex_types.specs.Rows.{row_of};
ghost use Rattle.dex_eager_market.specs.Accounts.{entry_of};
ghost use Rattle.dex_eager_market.specs.Acting as acts;
ghost use Rattle.dex_types.specs.NewOrder.{NewOrder};
ghost use Rattle.dex_cancel.specs.Cancelling.{named_by};
ghost use Rattle.dex_eager_market.specs.States.{CanList, IsKept, eager_of};

use crate::accounts::Account;
use crate::cancelling::{cancel_client, cancel_clients, cancel_first, cancel_id};
use crate::states::State;
use crate::trading::{order_in, take_in};
use dex_cancel::CancelWhat;
use dex_decide::taker_of;
use dex_match::Taker;
use dex_types::{Address, Ix, Row, Seen, Side, is_same};

/// The address is that of an account.
fn has_account(accounts: &[Account], owner: Address) -> bool
    ensures { result ≡ eager.has_account owner (map entry_of accounts.now) }
{
    for place in 0..accounts.len() {
        if is_same(owner, accounts[place].address) {
            return true;
        }
    }
    false
}

/// The account that a row names first, where it is one of the market's: what it does is what is done by the row.
fn acting(state: &State, named: &[Address]) -> Option<Address>
    ensures { (act : AddressOf → eager.EagerStep) → eager.by_account act (eager_of state.now) named.now
        ≡ acts.acted act (eager_of state.now) result }
{
    if named.is_empty() {
        return None;
    }
    let owner = named[0];
    if !has_account(&state.till.accounts, owner) {
        return None;
    }
    Some(owner)
}

/// A new order of an account.
fn order(state: &mut State, taker: Taker)
    requires { IsKept (2 ^ 124) state.old }
    ensures does { eager_of state.new ≡ (eager.order_by taker.id_side (order_of taker)
        (eager.order_meeting taker.id_side (order_of taker) (eager_of state.old)) (eager_of state.old)).market }
    ensures kept { (bound : ℕ) → IsKept bound state.old → IsKept (bound + 2 ^ 82) state.new }
{
    let sizes = state.sizes;
    match taker.id_side {
        Side::Bid => order_in(
            sizes,
            taker,
            &mut state.bids,
            &mut state.asks,
            &mut state.till,
        ),
        Side::Ask => order_in(
            sizes,
            taker,
            &mut state.asks,
            &mut state.bids,
            &mut state.till,
        ),
    }
}

/// A take.
fn take(state: &mut State, taker: Taker)
    requires { IsKept (2 ^ 124) state.old }
    ensures does { (min_lots min_pc : ℕ) → eager_of state.new
        ≡ (eager.eager_take taker.id_side (take_of taker min_lots min_pc) (eager_of state.old)).market }
    ensures kept { (bound : ℕ) → IsKept bound state.old → IsKept (bound + 2 ^ 82) state.new }
{
    match taker.id_side {
        Side::Bid => take_in(state.sizes, taker, &mut state.asks, &mut state.till),
        Side::Ask => take_in(state.sizes, taker, &mut state.bids, &mut state.till),
    }
}

/// An order as one of this account.
fn for_account(taker: Taker, owner: Address) -> Taker
    ensures side { result.id_side ≡ taker.id_side }
    ensures order { order_of result ≡ acts.order_for owner taker }
{
    Taker {
        account: owner,
        ..taker
    }
}

/// A new order of the account that its row names first.
fn order_row(state: &mut State, row: &Row, taker: Taker)
    requires { IsKept (2 ^ 124) state.old }
    ensures does { (order : AddressOf → NewOrder)
        → ((owner : AddressOf) → acts.order_for owner taker ≡ order owner)
        → eager_of state.new ≡ (eager.by_account (eager.eager_order taker.id_side order (eager_of state.old))
        (eager_of state.old) row.entry.now.named.items).market }
    ensures kept { (bound : ℕ) → IsKept bound state.old → IsKept (bound + 2 ^ 82) state.new }
{
    match acting(state, &row.named) {
        None => {}
        Some(owner) => order(state, for_account(taker, owner)),
    }
}

/// A cancel of an account's orders.
fn cancel(state: &mut State, owner: Address, what: CancelWhat)
    requires { CanList state.old }
    ensures does { eager_of state.new ≡ (eager.eager_cancel (named_by what) (eager_of state.old) owner).market }
    ensures kept { (bound : ℕ) → IsKept bound state.old → IsKept bound state.new }
{
    match what {
        CancelWhat::ById { side, id } => cancel_id(state, owner, side, id),
        CancelWhat::ByClient(client) => cancel_client(state, owner, client),
        CancelWhat::ByClients(ids) => cancel_clients(state, owner, &ids),
        CancelWhat::Prune(limit) => cancel_first(state, owner, limit),
    }
}

/// A cancel of orders of the account that its row names first.
fn cancel_row(state: &mut State, row: &Row, what: CancelWhat)
    requires { IsKept (2 ^ 124) state.old }
    ensures does { eager_of state.new ≡ (eager.by_account (eager.eager_cancel (named_by what) (eager_of state.old))
        (eager_of state.old) row.entry.now.named.items).market }
    ensures kept { (bound : ℕ) → IsKept bound state.old → IsKept (bound + 2 ^ 82) state.new }
{
    match acting(state, &row.named) {
        None => {}
        Some(owner) => cancel(state, owner, what),
    }
}

/// What an instruction does: orders, takes and cancels change the sides; all others change nothing.
pub fn act(state: &mut State, ix: Ix, row: &Row, seen: &Seen)
    requires { IsKept (2 ^ 124) state.old }
    ensures does { eager_of state.new ≡ (eager.eager_act ix (request_of (row_of row.entry.now)) seen.now
        (eager_of state.old)).market }
    ensures kept { (bound : ℕ) → IsKept bound state.old → IsKept (bound + 2 ^ 82) state.new }
{
    match ix {
        Ix::InitializeMarket { .. } => {}
        Ix::MatchOrders { .. } => {}
        Ix::ConsumeEvents { .. } => {}
        Ix::SettleFunds => {}
        Ix::DisableMarket => {}
        Ix::SweepFees => {}
        Ix::NewOrderV3 { .. } => order_row(state, row, taker_of(row, seen, &ix)),
        Ix::CancelOrderV2 { side, order_id } => {
            cancel_row(state, row, CancelWhat::ById { side, id: order_id })
        }
        Ix::CancelOrderByClientIdV2 { client_order_id } => {
            cancel_row(state, row, CancelWhat::ByClient(client_order_id))
        }
        Ix::SendTake { .. } => take(state, taker_of(row, seen, &ix)),
        Ix::CloseOpenOrders => {}
        Ix::InitOpenOrders => {}
        Ix::Prune { limit } => cancel_row(state, row, CancelWhat::Prune(limit)),
        Ix::CancelOrdersByClientIds { ids } => {
            cancel_row(state, row, CancelWhat::ByClients(ids))
        }
    }
}
