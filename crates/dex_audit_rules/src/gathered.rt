//! The orders and events of a market, taken out of its accounts once for all rules.

ghost use Rattle.std.specs.Prelude.{◌≡◌, map, IfOk};
ghost use Rattle.dex_types.specs.Accounts.{market_accounts_of};
ghost use Rattle.dex_types.specs.QueuedEvent.{decoded_event};
ghost use Rattle.dex_accounts.specs.Accepted.{IsAccepted};
ghost use Rattle.dex_ring.specs.Ring.{IsEventQueue, ring_of};
ghost use Rattle.dex_slab.specs.Slab.{IsSlab, resting};
ghost use Rattle.dex_audit_rules.specs.Books.{plain_gathered, gathered_in};

use dex_ring::RingRef;
use dex_slab::SlabRef;
use dex_types::{Event, MarketAccounts, NoMemory, Order, Side, SideRead, add};
use std::alloc::Global;

/// A market's resting orders, in book order, and its pending events, from the front.
#[derive(Drop)]
pub struct Gathered {
    pub bids: Vec<Order>,
    pub asks: Vec<Order>,
    pub events: Vec<Event>,
}

/// The resting orders of a side's account, in book order.
fn resting_orders(alloc: Global, bytes: &[u8], side: Side) -> Result<Vec<Order>, NoMemory>
    requires { IsSlab bytes.now }
    ensures { IfOk result (λ orders. orders.items ≡ resting side bytes.now) }
{
    let slab = SlabRef { bytes, side };
    let mut orders = Vec::new(alloc);
    let mut next = slab.best();
    'orders: while let Some(order) = next {
        add(&mut orders, order)?;
        next = slab.after(order.id);
    }
    Ok(orders)
}

/// The pending events of an event queue, from the front.
fn pending_events(alloc: Global, ring: &RingRef<'_>) -> Result<Vec<Event>, NoMemory>
    requires { IsEventQueue ring.now.bytes.now }
    ensures { IfOk result (λ events. map decoded_event events.items ≡ (ring_of ring.now.bytes.now).events) }
{
    let mut events = Vec::new(alloc);
    for number in 0..ring.len() {
        add(&mut events, ring.at(number))?;
    }
    Ok(events)
}

/// The orders and events of a market's accounts.
pub fn gather(alloc: Global, market: &MarketAccounts) -> Result<Gathered, NoMemory>
    requires { IsAccepted (market_accounts_of market.now) }
    ensures { IfOk result (λ gathered. plain_gathered gathered ≡ gathered_in (market_accounts_of market.now)) }
{
    let bids = resting_orders(alloc, &market.bids, Side::Bid)?;
    let asks = resting_orders(alloc, &market.asks, Side::Ask)?;
    let ring = RingRef {
        bytes: &market.events,
    };
    let events = pending_events(alloc, &ring)?;
    Ok(Gathered { bids, asks, events })
}
