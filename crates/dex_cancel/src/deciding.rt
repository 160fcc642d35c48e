//! Whether a cancel is refused.

ghost use Rattle.std.specs.Prelude.{◌≡◌};
ghost use Rattle.dex_types.specs.Cancel as cancel;
ghost use Rattle.dex_types.specs.Reasons.{answered, no_room};
ghost use Rattle.dex_cancel.specs.Cancelling.{decided, named_by};

use crate::counting::{count_listed, count_own};
use crate::finding::{find_oldest, find_on};
use crate::what::CancelWhat;
use dex_reasons::no_room;
use dex_types::{Address, Refusal, Side, SideRead, is_same};

/// So many orders, where the event queue has room for an out of each.
pub fn with_room(needed: u32, room: u32) -> Result<u32, Refusal>
    ensures { result ≡ answered (no_room needed room) needed }
{
    match no_room(needed, room) {
        Some(why) => Err(why),
        None => Ok(needed),
    }
}

/// A cancel by id: the order has to rest on the named side, and for the account.
fn decide_by_id<B: SideRead, A: SideRead>(
    bids: &B,
    asks: &A,
    room: u32,
    account: Address,
    side: Side,
    id: u128,
) -> Result<u32, Refusal>
    requires bids { B.holds bids.now }
    requires asks { A.holds asks.now }
    ensures { result ≡ decided (cancel.ById side id) account (B.orders bids.now) (A.orders asks.now) room }
{
    let Some(order) = find_on(bids, asks, side, id) else {
        return match find_on(bids, asks, side.opposite(), id) {
            Some(_) => Err(Refusal::SideMismatch),
            None => Err(Refusal::OrderNotFound),
        };
    };
    if !is_same(account, order.owner) {
        return Err(Refusal::OrderNotYours { owner: order.owner });
    }
    with_room(1, room)
}

/// A cancel by client id, which is not 0 and has to be one of the account's resting orders.
fn decide_by_client<B: SideRead, A: SideRead>(
    bids: &B,
    asks: &A,
    room: u32,
    account: Address,
    client: u64,
) -> Result<u32, Refusal>
    requires bids { B.holds bids.now }
    requires asks { A.holds asks.now }
    ensures { result ≡ decided (cancel.ByClient client) account (B.orders bids.now) (A.orders asks.now) room }
{
    if client == 0 {
        return Err(Refusal::ClientIdZero);
    }
    match find_oldest(bids, asks, account, client) {
        Some(_) => with_room(1, room),
        None => Err(Refusal::ClientIdNotFound),
    }
}

/// A cancel of the account's first orders, up to the limit.
fn decide_prune<B: SideRead, A: SideRead>(
    bids: &B,
    asks: &A,
    room: u32,
    account: Address,
    limit: u16,
) -> Result<u32, Refusal>
    requires bids { B.holds bids.now }
    requires asks { A.holds asks.now }
    ensures { result ≡ decided (cancel.First limit) account (B.orders bids.now) (A.orders asks.now) room }
{
    let needed = count_own(bids, asks, account).min(u64::from(limit)) as u32;
    with_room(needed, room)
}

/// Why a cancel is refused, else how many orders it takes. `room` is the number of free places of the event queue.
///
/// By id it is refused with OrderNotFound, SideMismatch or OrderNotYours, by client id with ClientIdZero or
/// ClientIdNotFound, and in each form with EventQueueFull, which carries the number of orders and the free places.
pub fn decide_cancel<B: SideRead>(
    bids: &B,
    asks: &B,
    room: u32,
    account: Address,
    what: &CancelWhat,
) -> Result<u32, Refusal>
    requires bids { B.holds bids.now }
    requires asks { B.holds asks.now }
    ensures { result ≡ decided (named_by what.now) account (B.orders bids.now) (B.orders asks.now) room }
{
    match what {
        CancelWhat::ById { side, id } => decide_by_id(bids, asks, room, account, *side, *id),
        CancelWhat::ByClient(client) => decide_by_client(bids, asks, room, account, *client),
        CancelWhat::ByClients(ids) => with_room(count_listed(bids, asks, account, ids), room),
        CancelWhat::Prune(limit) => decide_prune(bids, asks, room, account, *limit),
    }
}
