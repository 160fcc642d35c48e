//! Orders and events by their owners.

ghost use Rattle.std.specs.Prelude.{◌≡◌, [], ◌∷◌, ◌++◌, IfOk, OnOk, map, if◌then◌else◌};
ghost use Rattle.dex_types.specs.declared.addresses.Address.{Address};
ghost use Rattle.dex_types.specs.Addresses.{is_same};
ghost use Rattle.dex_types.specs.QueuedEvent.{decoded_event};
ghost use Rattle.dex_totals.specs.Owned.{AreOwnEvents, AreOwnOrders, own_of};

use dex_types::{Address, Event, NoMemory, Order};
use std::alloc::Global;
use std::collections::HashMap;

/// Items by their owners, each owner's in their order.
#[derive(Drop)]
pub struct ByOwner<T> {
    lists: HashMap<Address, Vec<T>>,
}

impl<T: Drop> ByOwner<T> {
    /// No owner has an item.
    fn new(alloc: Global) -> ByOwner<T>
        ensures { (owner : Address) → own_of result owner ≡ [] }
    {
        ByOwner {
            lists: HashMap::new(alloc),
        }
    }

    /// Adds an item behind the owner's others.
    fn add(&mut self, owner: Address, item: T) -> Result<(), NoMemory>
        ensures { OnOk result ((other : Address) → own_of self.new other
            ≡ own_of self.old other ++ (if is_same other owner then item ∷ [] else [])) }
    {
        self.lists.entry(owner)?.or_default().push(item)?;
        Ok(())
    }

    /// What the owner has.
    pub fn of(&self, owner: Address) -> &[T]
        ensures { result.now ≡ own_of self.now owner }
    {
        match self.lists.get(&owner) {
            Some(list) => list,
            None => &[],
        }
    }
}

/// The orders of each owner.
pub fn orders_by_owner(alloc: Global, orders: &[Order]) -> Result<ByOwner<Order>, NoMemory>
    ensures { IfOk result (λ own. AreOwnOrders own orders.now) }
{
    let mut own = ByOwner::new(alloc);
    for place in 0..orders.len() {
        own.add(orders[place].owner, orders[place])?;
    }
    Ok(own)
}

/// The events of each owner.
pub fn events_by_owner(alloc: Global, events: &[Event]) -> Result<ByOwner<Event>, NoMemory>
    ensures { IfOk result (λ own. AreOwnEvents own (map decoded_event events.now)) }
{
    let mut own = ByOwner::new(alloc);
    for place in 0..events.len() {
        own.add(events[place].owner, events[place])?;
    }
    Ok(own)
}
