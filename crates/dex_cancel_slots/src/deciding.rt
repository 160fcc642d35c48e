//! Whether a cancel is refused.

ghost use Rattle.std.specs.Prelude.{◌≡◌};
ghost use Rattle.dex_types.specs.Cancel as cancel;
ghost use Rattle.dex_cancel.specs.Cancelling.{decided, named_by};
ghost use Rattle.dex_cancel_slots.specs.Given.{IsGiven, IsNamed, sides_by, sides_given};

use crate::counting::{count_first, count_listed, has_more};
use crate::owned::{Owned, Owner, gathered};
use dex_cancel::steps::with_room;
use dex_cancel::{CancelWhat, decide_cancel};
use dex_types::{Refusal, SideRead};

/// A cancel by client id, which is not 0 and has to be one of the account's resting orders.
fn decide_by_client<B: SideRead, A: SideRead>(
    own: &Owned<'_, '_, '_, B, A>,
    room: u32,
    client: u64,
) -> Result<u32, Refusal>
    requires own { IsNamed B.holds B.orders A.holds A.orders own.now }
    ensures { result ≡ decided (cancel.ByClient client) own.now.account (B.orders own.now.bids.now)
        (A.orders own.now.asks.now) room }
{
    if client == 0 {
        return Err(Refusal::ClientIdZero);
    }
    if has_more(own, client, 0) {
        with_room(1, room)
    } else {
        Err(Refusal::ClientIdNotFound)
    }
}

/// A cancel of the account's first orders, up to the limit.
fn decide_prune<B: SideRead, A: SideRead>(
    own: &Owned<'_, '_, '_, B, A>,
    room: u32,
    limit: u16,
) -> Result<u32, Refusal>
    requires own { IsNamed B.holds B.orders A.holds A.orders own.now }
    ensures { result ≡ decided (cancel.First limit) own.now.account (B.orders own.now.bids.now)
        (A.orders own.now.asks.now) room }
{
    let needed = count_first(own, u32::from(limit));
    with_room(needed, room)
}

/// Why a cancel is refused, else how many orders it takes: the answers of `decide_cancel`, found by the slots of the
/// account. `room` is the number of free places of the event queue.
///
/// By id it is refused with OrderNotFound, SideMismatch or OrderNotYours, by client id with ClientIdZero or
/// ClientIdNotFound, and in each form with EventQueueFull, which carries the number of orders and the free places.
pub fn decide_cancel_by_slots<B: SideRead>(
    bids: &B,
    asks: &B,
    room: u32,
    owner: Owner<'_>,
    what: &CancelWhat,
) -> Result<u32, Refusal>
    requires bids { B.holds bids.now }
    requires asks { B.holds asks.now }
    requires market { let sides = sides_by (B.orders bids.now) (B.orders asks.now) in
        IsGiven sides_given sides owner.account owner.orders.bytes.now }
    ensures { result ≡ decided (named_by what.now) owner.entry.account (B.orders bids.now) (B.orders asks.now) room }
{
    let own = &gathered(owner, bids, asks);
    match what {
        CancelWhat::ById { .. } => decide_cancel(bids, asks, room, owner.account, what),
        CancelWhat::ByClient(client) => decide_by_client(own, room, *client),
        CancelWhat::ByClients(ids) => with_room(count_listed(own, ids), room),
        CancelWhat::Prune(limit) => decide_prune(own, room, *limit),
    }
}
