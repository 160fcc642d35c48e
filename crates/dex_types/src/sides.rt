//! What a side of the book answers and does, whatever holds its orders.

ghost use Rattle.std.specs.Prelude.{◌≡◌, ◌<◌, ◌≤◌, ℕ, List, Some, IsSome, length};
ghost use Rattle.dex_types.specs.declared.orders.Order.{Order};
ghost use Rattle.dex_types.specs.declared.terms.Side.{Side};
ghost use Rattle.dex_types.specs.BookSide.{best_of, order_after, with_lots, CanRest, IsNewId, IsBookSide};
ghost use Rattle.dex_types.specs.Cancel.{order_with, without_order};
ghost use Rattle.dex_types.specs.Posting.{last_of, posted};

use crate::{Order, Side};

/// A side of the book for reading: its resting orders, bids by falling id and asks by rising id, and how many it has
/// room for. None is answered exactly where there is no such order.
pub trait SideRead {
    /// Which side of the book it is.
    ghost side: { Self → Side };

    /// The resting orders, in book order.
    ghost orders: { Self → List Order };

    /// How many orders it has room for.
    ghost room: { Self → ℕ };

    /// What each call needs, and each writing call keeps.
    ghost holds: { Self → Type 0 };

    /// How many orders rest.
    fn count(&self) -> u32
        requires { holds self.now }
        ensures { result ≡ length (orders self.now) };

    /// How many orders it has room for.
    fn capacity(&self) -> u32
        requires { holds self.now }
        ensures { result ≡ room self.now };

    /// The first order: the highest bid or the lowest ask, of equal prices the oldest.
    fn best(&self) -> Option<Order>
        requires { holds self.now }
        ensures { result ≡ best_of (orders self.now) };

    /// The last order: the lowest bid or the highest ask, of equal prices the newest.
    fn worst(&self) -> Option<Order>
        requires { holds self.now }
        ensures { result ≡ last_of (orders self.now) };

    /// The order of an id.
    fn find(&self, id: u128) -> Option<Order>
        requires { holds self.now }
        ensures { result ≡ order_with id (orders self.now) };

    /// The order that follows the resting order of an id.
    fn after(&self, id: u128) -> Option<Order>
        requires holds { holds self.now }
        requires rests { IsSome (order_with id (orders self.now)) }
        ensures { result ≡ order_after id (orders self.now) };

    /// A side that holds is in book order, within its room, and each order is one that can rest.
    ghost is_book_side: { (x : Self) → holds x → IsBookSide (side x) (room x) (orders x) };
}

/// A side of the book for reading and for writing. No call takes memory.
pub trait SideBook: SideRead {
    /// Two states lie in one place: what is written to the later is seen by whoever lent the earlier.
    ghost same_place: { Self → Self → Type 0 };

    /// Puts an order in its place.
    fn insert(&mut self, order: Order)
        requires holds { Self.holds self.old }
        requires new { IsNewId order.id (Self.orders self.old) }
        requires can_rest { CanRest order }
        requires room { length (Self.orders self.old) < Self.room self.old }
        ensures orders { Self.orders self.new ≡ posted (Self.side self.old) order (Self.orders self.old) }
        ensures holds { Self.holds self.new }
        ensures side { Self.side self.new ≡ Self.side self.old }
        ensures room { Self.room self.new ≡ Self.room self.old }
        ensures place { same_place self.old self.new };

    /// Gives the resting order of an id other lots, not 0.
    fn set_lots(&mut self, id: u128, lots: u64)
        requires holds { Self.holds self.old }
        requires rests { IsSome (order_with id (Self.orders self.old)) }
        requires lots { 1 ≤ lots }
        ensures orders { Self.orders self.new ≡ with_lots id lots (Self.orders self.old) }
        ensures holds { Self.holds self.new }
        ensures side { Self.side self.new ≡ Self.side self.old }
        ensures room { Self.room self.new ≡ Self.room self.old }
        ensures place { same_place self.old self.new };

    /// Takes the resting order of an id off the side, and answers it.
    fn remove(&mut self, id: u128) -> Order
        requires holds { Self.holds self.old }
        requires rests { IsSome (order_with id (Self.orders self.old)) }
        ensures order { order_with id (Self.orders self.old) ≡ Some result }
        ensures orders { Self.orders self.new ≡ without_order id (Self.orders self.old) }
        ensures holds { Self.holds self.new }
        ensures side { Self.side self.new ≡ Self.side self.old }
        ensures room { Self.room self.new ≡ Self.room self.old }
        ensures place { same_place self.old self.new };

    /// Every state lies in its own place.
    ghost stays: { (x : Self) → same_place x x };

    /// A state that lies in the place of a state that lies in the place of a first one lies in the first one's.
    ghost chains: { (x y z : Self) → same_place x y → same_place y z → same_place x z };
}
