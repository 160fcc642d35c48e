//! How many orders of an account a cancel takes.

ghost use Rattle.std.specs.Prelude.{◌≡◌, ◌≤◌, ◌<◌, ◌&&◌, ◌==◌, None, length, nat_lt, not, take};
ghost use Rattle.std.specs.Prelude.{slice_index, slice_index_or};
ghost use Rattle.dex_types.specs.Cancel as cancel;
ghost use Rattle.dex_types.specs.Cancel.{all_orders_of, cancelled};
ghost use Rattle.dex_cancel.specs.Counting.{count_among, count_of_client};
ghost use Rattle.dex_cancel_slots.specs.Given.{IsNamed, slots_in};
ghost use Rattle.dex_cancel_slots.specs.Slots.{any_holding, has_client, named_by_slot};

use crate::owned::Owned;
use crate::taken::{client_at, taken_end};
use dex_cancel::steps::{count_before, find_on};
use dex_types::{ClientIds, SideRead};

/// How many orders a slot names: one where it is taken and its order rests. It is not inlined: it has room for an
/// order, which no slot of another client id needs.
#[inline(never)]
fn count_at<B: SideRead, A: SideRead>(own: &Owned<'_, '_, '_, B, A>, slot: u8) -> u32
    requires own { IsNamed B.holds B.orders A.holds A.orders own.now }
    ensures count { let held = slice_index_or (slots_in own.now.orders) slot None in
        result ≡ length (named_by_slot any_holding (B.orders own.now.bids.now) (A.orders own.now.asks.now) held) }
    ensures one { result ≤ 1 }
{
    let Some((id, side, _)) = own.orders.slot(slot) else {
        return 0;
    };
    match find_on(own.bids, own.asks, side, id) {
        Some(_) => 1,
        None => 0,
    }
}

/// How many orders of the account rest, up to the limit. It looks up no more of them.
pub fn count_first<B: SideRead, A: SideRead>(own: &Owned<'_, '_, '_, B, A>, limit: u32) -> u32
    requires own { IsNamed B.holds B.orders A.holds A.orders own.now }
    ensures { result
        ≡ length (cancelled (cancel.First limit) own.now.account (B.orders own.now.bids.now)
        (A.orders own.now.asks.now)) }
{
    let mut count = 0;
    let end = taken_end(&own.orders);
    let mut slot = 0;
    'slots: while slot < end {
        if count == limit {
            return count;
        }
        count += count_at(own, slot);
        slot += 1;
    }
    count
}

/// How many orders a slot names by the client id.
fn count_client_at<B: SideRead, A: SideRead>(
    own: &Owned<'_, '_, '_, B, A>,
    slot: u8,
    client: u64,
) -> u32
    requires own { IsNamed B.holds B.orders A.holds A.orders own.now }
    requires slot { slot < 128 }
    ensures count { let held = slice_index_or (slots_in own.now.orders) slot None in
        result
        ≡ length (named_by_slot (has_client client) (B.orders own.now.bids.now) (A.orders own.now.asks.now) held) }
    ensures one { result ≤ 1 }
{
    if client_at(&own.orders, slot) == client {
        count_at(own, slot)
    } else {
        0
    }
}

/// Whether the account has more orders of the client id than this number. It looks up no more once there are.
pub fn has_more<B: SideRead, A: SideRead>(
    own: &Owned<'_, '_, '_, B, A>,
    client: u64,
    than: u64,
) -> bool
    requires own { IsNamed B.holds B.orders A.holds A.orders own.now }
    ensures { let all = all_orders_of own.now.account (B.orders own.now.bids.now) (A.orders own.now.asks.now) in
        result ≡ nat_lt than (count_of_client client all) }
{
    let end = taken_end(&own.orders);
    let mut count = 0;
    let mut slot = 0;
    'slots: while slot < end {
        count += u64::from(count_client_at(own, slot, client));
        if count > than {
            return true;
        }
        slot += 1;
    }
    false
}

/// The client id at this place takes an order: it is not 0, and the account has more orders of it than the same client
/// id in front of this place took.
fn takes_one<B: SideRead, A: SideRead>(
    own: &Owned<'_, '_, '_, B, A>,
    ids: &[u64; 8],
    place: usize,
) -> bool
    requires own { IsNamed B.holds B.orders A.holds A.orders own.now }
    requires place { place < 8 }
    ensures { let client = slice_index ids.now place in
        let all = all_orders_of own.now.account (B.orders own.now.bids.now) (A.orders own.now.asks.now) in
        result ≡ (not (client == 0)
        && nat_lt (count_among client (take place ids.now)) (count_of_client client all)) }
{
    let client = ids[place];
    if client == 0 {
        return false;
    }
    let before = count_before(ids, place, client);
    has_more(own, client, before)
}

/// How many orders the client ids take, one after the other.
pub fn count_listed<B: SideRead, A: SideRead>(own: &Owned<'_, '_, '_, B, A>, ids: &ClientIds) -> u32
    requires own { IsNamed B.holds B.orders A.holds A.orders own.now }
    ensures { let by = cancel.ByClients (take ids.now.count ids.now.ids) in
        result ≡ length (cancelled by own.now.account (B.orders own.now.bids.now) (A.orders own.now.asks.now)) }
{
    let mut count = 0;
    for place in 0..usize::from(ids.count) {
        if takes_one(own, &ids.ids, place) {
            count += 1;
        }
    }
    count
}
