//! Orders, counted by id and side: those that rest, and final outs.

ghost use Rattle.std.specs.Prelude.{◌≡◌, ℕ, [], ◌+◌, ◌-◌, ◌<◌, ◌^◌, length, map, OnOk, IfOk};
ghost use Rattle.dex_types.specs.QueuedEvent.{decoded_event};
ghost use Rattle.dex_types.specs.Soundness as book;
ghost use Rattle.dex_types.specs.Trader.{Holding};
ghost use Rattle.dex_totals.specs.Tallies.{AreFinals, AreIds, AreResting, times_of};

use crate::tally;
use dex_crank::{Kind, is_final, kind_of};
use dex_types::{Event, NoMemory, Order, Side};
use std::alloc::Global;
use std::collections::BTreeMap;

/// How often each order was counted, by its id, apart for bids and asks.
#[derive(Drop)]
pub struct Counts {
    pub bids: BTreeMap<u128, u32>,
    pub asks: BTreeMap<u128, u32>,
}

/// The side of an event's order.
pub fn side_of(event: &Event) -> Side
    ensures { result ≡ book.side_of_kind (decoded_event event.now).kind }
{
    match kind_of(event.flags) {
        Kind::MakerFill(side)
        | Kind::TakerFill(side)
        | Kind::PlainOut(side)
        | Kind::ReleasingOut(side) => side,
    }
}

impl Counts {
    /// None was counted yet.
    pub fn new(alloc: Global) -> Counts
        ensures { AreFinals result [] }
    {
        Counts {
            bids: BTreeMap::new(alloc),
            asks: BTreeMap::new(alloc),
        }
    }

    /// How often the order of this id and side was counted.
    pub fn times(&self, id: u128, side: Side) -> u32
        ensures { (client : ℕ) → result ≡ times_of self.now (record { id = id; side = side; client = client }) }
    {
        match side {
            Side::Bid => tally::times(&self.bids, id),
            Side::Ask => tally::times(&self.asks, id),
        }
    }

    /// Counts the event's order, where the event is a final out.
    pub fn count(&mut self, event: &Event) -> Result<(), NoMemory>
        requires { (held : Holding) → times_of self.old held < 2 ^ 32 - 1 }
        ensures { OnOk result ((held : Holding) →
            times_of self.new held ≡ times_of self.old held + book.counts_final held (decoded_event event.now)) }
    {
        if is_final(event) {
            match side_of(event) {
                Side::Bid => tally::count(&mut self.bids, event.id)?,
                Side::Ask => tally::count(&mut self.asks, event.id)?,
            }
        }
        Ok(())
    }
}

/// The final outs of these events.
pub fn all_finals(alloc: Global, events: &[Event]) -> Result<Counts, NoMemory>
    requires { length events.now < 2 ^ 32 }
    ensures { IfOk result (λ finals. AreFinals finals (map decoded_event events.now)) }
{
    let mut finals = Counts::new(alloc);
    for place in 0..events.len() {
        finals.count(&events[place])?;
    }
    Ok(finals)
}

/// How often each id stands among the orders of a side.
fn count_ids(alloc: Global, orders: &[Order]) -> Result<BTreeMap<u128, u32>, NoMemory>
    requires { length orders.now < 2 ^ 32 }
    ensures { IfOk result (λ ids. AreIds ids orders.now) }
{
    let mut ids = BTreeMap::new(alloc);
    for place in 0..orders.len() {
        tally::count(&mut ids, orders[place].id)?;
    }
    Ok(ids)
}

/// The resting orders of both sides.
pub fn all_resting(alloc: Global, bids: &[Order], asks: &[Order]) -> Result<Counts, NoMemory>
    requires bids { length bids.now < 2 ^ 32 }
    requires asks { length asks.now < 2 ^ 32 }
    ensures { IfOk result (λ resting. AreResting resting bids.now asks.now) }
{
    let bids = count_ids(alloc, bids)?;
    let asks = count_ids(alloc, asks)?;
    Ok(Counts { bids, asks })
}
