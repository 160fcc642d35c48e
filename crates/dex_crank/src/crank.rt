//! Consuming events from the front of the queue.

ghost use Rattle.std.specs.Prelude.{◌≡◌, ◌+◌, ◌<◌, ◌∷◌, length, map};
ghost use Rattle.dex_types.specs.Market.{Market};
ghost use Rattle.dex_types.specs.Payment.{consumable};
ghost use Rattle.dex_types.specs.QueuedEvent.{decoded_event};
ghost use Rattle.dex_types.specs.Side.{Coin, Pc};
ghost use Rattle.dex_types.specs.Solvency.{all_leaving};
ghost use Rattle.dex_ring.specs.Ring.{events_of};
ghost use Rattle.dex_accounts.specs.Keeps.{KeepsEvents};
ghost use Rattle.dex_crank.specs.PaidBytes.{crank_bytes, crank_of, paid_bytes, paid_first};
ghost use Rattle.dex_crank.specs.Parts.{AreCrankedIn, AreOfSoundMarket, Keeps};

use crate::accounts::PaysOrders;
use crate::kinds::with_fill;
use crate::queue::{goes_on, take_first};
use dex_lent::OwnedOrders;
use dex_ring::{PendingFills, RingView};
use dex_types::{Address, Event, OrdersAccount};

/// What a crank consumed: how many events, and what these were still to take off totals.
#[derive(Clone, Copy, Debug, PartialEq, Eq)]
pub struct Consumed {
    pub count: u32,
    pub fills: PendingFills,
}

/// Pays the first event to its owner and takes it off the queue.
fn pay_first<A: PaysOrders>(queue: &mut [u8], accounts: &mut A) -> Event
    requires market { (m : Market) × AreCrankedIn m (crank_of queue.old (A.held accounts.old)) }
    requires pending { 0 < length (events_of queue.old) }
    ensures event { events_of queue.old ≡ decoded_event result ∷ events_of queue.new }
    ensures bytes { crank_of queue.new (A.held accounts.new) ≡ paid_first (crank_of queue.old (A.held accounts.old)) }
    ensures place { A.place accounts.new ≡ A.place accounts.old }
{
    let event = take_first(queue);
    accounts.pay_owner(&event);
    event
}

/// Consumes events of a slice that is a queue.
pub(crate) fn consume_from<A: PaysOrders>(
    queue: &mut [u8],
    accounts: &mut A,
    named: &[Address],
    limit: u16,
) -> Consumed
    requires { (m : Market) × AreCrankedIn m (crank_of queue.old (A.held accounts.old)) }
    ensures count { result.count ≡ consumable limit named.now (events_of queue.old) }
    ensures coin { all_leaving Coin (events_of queue.old)
        ≡ result.fills.coin + all_leaving Coin (events_of queue.new) }
    ensures pc { all_leaving Pc (events_of queue.old) ≡ result.fills.pc + all_leaving Pc (events_of queue.new) }
    ensures does { crank_of queue.new (A.held accounts.new)
        ≡ paid_bytes result.count (crank_of queue.old (A.held accounts.old)) }
    ensures place { A.place accounts.new ≡ A.place accounts.old }
{
    let mut fills = PendingFills { coin: 0, pc: 0 };
    for count in 0..limit {
        if !goes_on(queue, named) {
            let count = u32::from(count);
            return Consumed { count, fills };
        }
        let event = pay_first(queue, accounts);
        fills = with_fill(fills, &event);
    }
    let count = u32::from(limit);
    Consumed { count, fills }
}

/// Consumes events as `consume` does, and tells what they were still to take off totals: the sums over the events that
/// are pending afterwards are those before less these. So who keeps the two sums needs no pass over the queue.
pub fn consume_with_pending<A: PaysOrders>(
    ring: &mut RingView<'_>,
    accounts: &mut A,
    named: &[Address],
    limit: u16,
) -> Consumed
    requires { AreOfSoundMarket (crank_of ring.old.bytes.now (A.held accounts.old)) }
    ensures count { result.count ≡ consumable limit named.now (events_of ring.old.bytes.now) }
    ensures coin { all_leaving Coin (events_of ring.old.bytes.now)
        ≡ result.fills.coin + all_leaving Coin (events_of ring.new.bytes.now) }
    ensures pc { all_leaving Pc (events_of ring.old.bytes.now)
        ≡ result.fills.pc + all_leaving Pc (events_of ring.new.bytes.now) }
    ensures does { crank_of ring.new.bytes.now (A.held accounts.new)
        ≡ paid_bytes result.count (crank_of ring.old.bytes.now (A.held accounts.old)) }
    ensures ring { KeepsEvents ring.old ring.new }
    ensures kept { Keeps (crank_of ring.old.bytes.now (A.held accounts.old))
        (crank_of ring.new.bytes.now (A.held accounts.new)) }
    ensures place { A.place accounts.new ≡ A.place accounts.old }
{
    consume_from(ring.bytes, accounts, named, limit)
}

/// Consumes events from the front of the queue, at most `limit`, up to the first one whose owner is not among the named
/// addresses, and answers how many.
///
/// Each is paid to its owner's account in place: a filled bid gets base, and its rebate is free; a filled ask gets
/// quote; a filled new order's account keeps the fee's part for a referrer; and an out unlocks what it releases, and
/// frees its slot where it leaves nothing locked. The queue's head and count move on; all other bytes stay. The queue
/// and the accounts are to be those of one sound market: then each pending event's owner is open, and every amount
/// fits.
pub fn consume(
    ring: &mut RingView<'_>,
    accounts: &mut [OrdersAccount],
    named: &[Address],
    limit: u16,
) -> u32
    requires { AreOfSoundMarket (crank_bytes ring.old.bytes.now accounts.old) }
    ensures count { result ≡ consumable limit named.now (events_of ring.old.bytes.now) }
    ensures does { crank_bytes ring.new.bytes.now accounts.new
        ≡ paid_bytes result (crank_bytes ring.old.bytes.now accounts.old) }
    ensures ring { KeepsEvents ring.old ring.new }
    ensures kept { Keeps (crank_bytes ring.old.bytes.now accounts.old) (crank_bytes ring.new.bytes.now accounts.new) }
{
    let mut owned = OwnedOrders { accounts };
    consume_with_pending(ring, &mut owned, named, limit).count
}
