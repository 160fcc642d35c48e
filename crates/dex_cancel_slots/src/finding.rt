//! Orders that the slots of an account name by their client id.

ghost use Rattle.std.specs.Prelude.{◌≡◌, ◌<◌, None, slice_index_or};
ghost use Rattle.dex_types.specs.Cancel.{all_orders_of, at_most_one, oldest};
ghost use Rattle.dex_orders.specs.OrdersAccount.{IsOpen};
ghost use Rattle.dex_cancel.specs.Finding.{maybe_resting};
ghost use Rattle.dex_cancel_slots.specs.Given.{IsNamed, slots_in};
ghost use Rattle.dex_cancel_slots.specs.Slots.{DoSlotsName, has_client, named_by_slot};

use crate::owned::{Owned, Owner, gathered};
use crate::taken::{client_at, taken_end};
use dex_cancel::steps::{Found, find_on, older_of};
use dex_types::SideRead;

/// The order that a slot names, where the slot has the client id.
pub fn named_at<B: SideRead, A: SideRead>(
    own: &Owned<'_, '_, '_, B, A>,
    slot: u8,
    client: u64,
) -> Option<Found>
    requires own { IsNamed B.holds B.orders A.holds A.orders own.now }
    requires slot { slot < 128 }
    ensures { let held = slice_index_or (slots_in own.now.orders) slot None in
        at_most_one (maybe_resting result)
        ≡ named_by_slot (has_client client) (B.orders own.now.bids.now) (A.orders own.now.asks.now) held }
{
    if client_at(&own.orders, slot) != client {
        return None;
    }
    let (id, side, _) = own.orders.slot(slot)?;
    let order = find_on(own.bids, own.asks, side, id)?;
    Some(Found { side, order })
}

/// The account's order of the client id that has the least sequence number.
pub fn find_oldest<B: SideRead, A: SideRead>(
    owner: Owner<'_>,
    bids: &B,
    asks: &A,
    client: u64,
) -> Option<Found>
    requires open { IsOpen owner.orders.bytes.now }
    requires bids { B.holds bids.now }
    requires asks { A.holds asks.now }
    requires names { DoSlotsName owner.account (slots_in owner.orders) (B.orders bids.now) (A.orders asks.now) }
    ensures { maybe_resting result ≡ oldest client (all_orders_of owner.entry.account (B.orders bids.now) (A.orders asks.now)) }
{
    let own = &gathered(owner, bids, asks);
    let mut found = None;
    let end = taken_end(&owner.orders);
    let mut slot = 0;
    'slots: while slot < end {
        found = older_of(found, named_at(own, slot, client));
        slot += 1;
    }
    found
}
