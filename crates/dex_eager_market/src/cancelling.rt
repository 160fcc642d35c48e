//! Cancels: orders leave the book.

ghost use Rattle.std.specs.Prelude.{◌≡◌, ℕ, List, [], ◌∷◌, map, take};
ghost use Rattle.dex_eager.specs.Eager as eager;
ghost use Rattle.dex_types.specs.Cancel as cancel;
ghost use Rattle.dex_eager_market.specs.Listing.{own_resting, resting_of, resting_there};
ghost use Rattle.dex_eager_market.specs.States.{CanList, IsKept, eager_of};

use crate::book_list::{order_with, remove_order};
use crate::listing::{Resting, forget, list_own, resting_at, taken_by};
use crate::states::State;
use dex_types::{Address, ClientIds, Order, Side, is_same};

/// Takes an order off its side.
fn take_off(state: &mut State, gone: Resting)
    ensures off { eager_of state.new ≡ eager.without_all (resting_of gone ∷ []) (eager_of state.old) }
    ensures listed { state.new.listed.items ≡ state.old.listed.items }
    ensures kept { (bound : ℕ) → IsKept bound state.old → IsKept bound state.new }
{
    match gone.side {
        Side::Bid => remove_order(&mut state.bids.orders, gone.order.id),
        Side::Ask => remove_order(&mut state.asks.orders, gone.order.id),
    }
}

/// Like `take_off`, of an order that may be there.
fn take_found(state: &mut State, found: Option<Resting>)
    ensures off { eager_of state.new
        ≡ eager.without_all (cancel.at_most_one (resting_there found)) (eager_of state.old) }
    ensures listed { state.new.listed.items ≡ state.old.listed.items }
    ensures kept { (bound : ℕ) → IsKept bound state.old → IsKept bound state.new }
{
    if let Some(gone) = found {
        take_off(state, gone);
    }
}

/// Lists the account's resting orders.
fn list_orders(state: &mut State, owner: Address)
    requires { CanList state.old }
    ensures listed { map resting_of state.new.listed.items
        ≡ cancel.all_orders_of owner state.old.bids.orders.items state.old.asks.orders.items }
    ensures same { eager_of state.new ≡ eager_of state.old }
    ensures kept { (bound : ℕ) → IsKept bound state.old → IsKept bound state.new }
{
    list_own(
        &mut state.listed,
        owner,
        &state.bids.orders,
        &state.asks.orders,
    );
}

/// The order of an id on a side, if it rests.
fn order_on(state: &State, side: Side, id: u128) -> Option<Order>
    ensures { result ≡ cancel.order_with id (eager.orders_on side (eager_of state.now)) }
{
    match side {
        Side::Bid => order_with(&state.bids.orders, id),
        Side::Ask => order_with(&state.asks.orders, id),
    }
}

/// The order with its side, where it is the account's.
fn own_of(owner: Address, side: Side, found: Option<Order>) -> Option<Resting>
    ensures { resting_there result ≡ own_resting owner side found }
{
    match found {
        None => None,
        Some(order) => {
            if is_same(owner, order.owner) {
                Some(Resting { side, order })
            } else {
                None
            }
        }
    }
}

/// Cancels the account's order of a side and an id.
pub fn cancel_id(state: &mut State, owner: Address, side: Side, id: u128)
    ensures does { eager_of state.new ≡ (eager.eager_cancel (cancel.ById side id) (eager_of state.old) owner).market }
    ensures kept { (bound : ℕ) → IsKept bound state.old → IsKept bound state.new }
{
    let found = own_of(owner, side, order_on(state, side, id));
    take_found(state, found);
}

/// Cancels the account's oldest order with a client id.
pub fn cancel_client(state: &mut State, owner: Address, client: u64)
    requires { CanList state.old }
    ensures does { eager_of state.new
        ≡ (eager.eager_cancel (cancel.ByClient client) (eager_of state.old) owner).market }
    ensures kept { (bound : ℕ) → IsKept bound state.old → IsKept bound state.new }
{
    list_orders(state, owner);
    let found = taken_by(&state.listed, client);
    take_found(state, found);
}

/// Cancels the account's first orders, at most this many.
pub fn cancel_first(state: &mut State, owner: Address, limit: u16)
    requires { CanList state.old }
    ensures does { eager_of state.new ≡ (eager.eager_cancel (cancel.First limit) (eager_of state.old) owner).market }
    ensures kept { (bound : ℕ) → IsKept bound state.old → IsKept bound state.new }
{
    list_orders(state, owner);
    let count = state.listed.len().min(usize::from(limit));
    for place in 0..count {
        let found = resting_at(&state.listed, place);
        take_found(state, found);
    }
}

/// Cancels one order for a client id of a list, which then leaves the list of orders.
fn cancel_next(state: &mut State, client: u64)
    ensures does { (clients : List ℕ) →
        eager.without_all (cancel.taken_by_all clients (map resting_of state.new.listed.items)) (eager_of state.new)
        ≡ eager.without_all (cancel.taken_by_all (client ∷ clients) (map resting_of state.old.listed.items))
        (eager_of state.old) }
    ensures kept { (bound : ℕ) → IsKept bound state.old → IsKept bound state.new }
{
    let found = taken_by(&state.listed, client);
    take_found(state, found);
    forget(&mut state.listed, found);
}

/// Cancels for each client id of a list the account's oldest order that has it.
pub fn cancel_clients(state: &mut State, owner: Address, ids: &ClientIds)
    requires { CanList state.old }
    ensures does { eager_of state.new
        ≡ (eager.eager_cancel (cancel.ByClients (take ids.now.count ids.now.ids)) (eager_of state.old) owner).market }
    ensures kept { (bound : ℕ) → IsKept bound state.old → IsKept bound state.new }
{
    list_orders(state, owner);
    for place in 0..usize::from(ids.count) {
        cancel_next(state, ids.ids[place]);
    }
}
