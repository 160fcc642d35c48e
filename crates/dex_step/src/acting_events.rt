//! Events consumed, in place. It takes no memory.

ghost use Rattle.dex_accounts.specs.Decoded.{AreSound, market_in};
ghost use Rattle.dex_crank.specs.PaidBytes.{crank_of};
ghost use Rattle.dex_crank.specs.Parts.{AreOfSoundMarket};
ghost use Rattle.dex_ring.specs.PendingFills.{pending_fills_of};
ghost use Rattle.dex_step.specs.Acting.{HasStepped};
ghost use Rattle.dex_step.specs.ConsumeActs.{HasConsumed, consume_step};
ghost use Rattle.dex_lent.specs.Lent.{KeepsPlaces, lent_of};
ghost use Rattle.std.specs.Prelude.{◌≡◌};

use crate::steps_orders::StepsOrders;
use dex_crank::{Consumed, PaysOrders, consume_with_pending};
use dex_lent::LentMarket;
use dex_ring::{PendingFills, RingView};
use dex_types::{Address, Reply};

/// Consumes events, on the bytes of the queue and of the accounts.
fn consume_on_bytes<A: PaysOrders>(
    events: &mut [u8],
    accounts: &mut A,
    named: &[Address],
    limit: u16,
) -> Consumed
    requires { AreOfSoundMarket (crank_of events.old (A.held accounts.old)) }
    ensures does { HasConsumed limit named.entry.now result (crank_of events.old (A.held accounts.old))
        (crank_of events.new (A.held accounts.new)) }
    ensures place { A.place accounts.new ≡ A.place accounts.old }
{
    consume_with_pending(&mut RingView { bytes: events }, accounts, named, limit)
}

/// Events consumed from the front of the queue, at most `limit`, up to the first whose owner is not named: each pays
/// its owner's account, and it is answered how many there were. What they were to take off totals leaves the sums.
pub(crate) fn consume_row<O: StepsOrders>(
    accounts: &mut LentMarket<'_, O>,
    pending: &mut PendingFills,
    named: &[Address],
    limit: u16,
) -> Reply
    requires sound { AreSound (lent_of O.held accounts.old) }
    requires sums { pending.old ≡ pending_fills_of (market_in (lent_of O.held accounts.old)).events }
    ensures stepped { HasStepped (lent_of O.held accounts.old) (lent_of O.held accounts.new) result pending.new
        (consume_step limit named.entry.now (market_in (lent_of O.held accounts.old))) }
    ensures places { KeepsPlaces O.place accounts.old accounts.new }
{
    let consumed = consume_on_bytes(accounts.events, accounts.orders, named, limit);
    pending.coin -= consumed.fills.coin;
    pending.pc -= consumed.fills.pc;
    Reply::Consumed(consumed.count)
}
