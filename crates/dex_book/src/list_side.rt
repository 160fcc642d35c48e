//! A side of the book as a sorted list.

ghost use Rattle.std.specs.Prelude.{◌≡◌, [], IfOk};
ghost use Rattle.dex_book.specs.ListSide.{IsListed};

use crate::places::{order_at, order_with, place_in_book, resting_place};
use dex_types::{NoMemory, Order, Side, SideBook, SideRead};
use std::alloc::Global;
use std::marker::Model;

/// A side of the book as a list of its orders in book order, whose room is reserved when it is made.
#[derive(Drop)]
pub struct ListSide {
    side: Side,
    capacity: u32,
    orders: Vec<Order>,
}

impl Model for ListSide {
    ghost use Rattle.std.specs.Prelude.{◌≤◌, ◌<◌, ◌^◌};
    ghost use Rattle.std.specs.Vec.{vec_capacity};
    ghost use Rattle.dex_book.specs.ListSide.{ListedSide};

    ghost Value = { ListedSide };

    ghost view = { λ s. record { side = s.side; room = s.capacity; orders = s.orders.items } };

    ghost invariant = { λ s. (s.capacity ≤ vec_capacity s.orders) × (s.capacity < 2 ^ 32) };
}

impl ListSide {
    /// An empty side with room for this many orders, all reserved here.
    pub fn with_room(alloc: Global, side: Side, capacity: u32) -> Result<ListSide, NoMemory>
        ensures made { IfOk result (λ s. s ≡ record { side = side; room = capacity; orders = [] }) }
        ensures holds { IfOk result IsListed }
    {
        match Vec::with_capacity(alloc, capacity as usize) {
            Ok(orders) => Ok(ListSide {
                side,
                capacity,
                orders,
            }),
            Err(_) => Err(NoMemory),
        }
    }
}

impl SideRead for ListSide {
    ghost side = { λ s. s.side };

    ghost orders = { λ s. s.orders };

    ghost room = { λ s. s.room };

    ghost holds = { IsListed };

    ghost is_book_side = { λ s held. held };

    fn count(&self) -> u32 {
        self.orders.len() as u32
    }

    fn capacity(&self) -> u32 {
        self.capacity
    }

    fn best(&self) -> Option<Order> {
        self.orders.first().copied()
    }

    fn worst(&self) -> Option<Order> {
        self.orders.last().copied()
    }

    fn find(&self, id: u128) -> Option<Order> {
        order_with(self.side, &self.orders, id)
    }

    fn after(&self, id: u128) -> Option<Order> {
        let place = resting_place(self.side, &self.orders, id);
        order_at(&self.orders, place + 1)
    }
}

impl SideBook for ListSide {
    ghost same_place = { λ _ _. Unit {0} };

    ghost stays = { λ _. tt };

    ghost chains = { λ _ _ _ _ _. tt };

    fn insert(&mut self, order: Order) {
        let place = place_in_book(self.side, &self.orders, order.id);
        self.orders.insert(place, order).unwrap();
    }

    fn set_lots(&mut self, id: u128, lots: u64) {
        let place = resting_place(self.side, &self.orders, id);
        self.orders[place].lots = lots;
    }

    fn remove(&mut self, id: u128) -> Order {
        let place = resting_place(self.side, &self.orders, id);
        self.orders.remove(place)
    }
}
