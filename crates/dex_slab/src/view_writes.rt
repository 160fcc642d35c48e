//! A view of a side for writing, as a side for writing in place.

ghost use Rattle.std.specs.Prelude.{◌≡◌, ◌+◌, ◌-◌, ◌<◌, ◌≤◌, IsSome, Some, length};
ghost use Rattle.dex_types.specs.BookSide.{CanRest, IsNewId, with_lots};
ghost use Rattle.dex_types.specs.Cancel.{order_with, without_order};
ghost use Rattle.dex_types.specs.Posting.{posted};
ghost use Rattle.dex_slab.specs.Changes.{ChangesLotsOf, ChangesThreeNodes, KeepsFrame};
ghost use Rattle.dex_slab.specs.Nodes.{bump_of, count_of, free_len_of};
ghost use Rattle.dex_slab.specs.Slab.{IsSlab, resting, room_in};
ghost use Rattle.dex_slab.specs.Walks.{nodes_given, nodes_taken};

use crate::SlabView;
use crate::insert::insert_order;
use crate::remove::remove_order;
use crate::set_lots::set_order_lots;
use dex_types::{Order, SideBook};

/// What is written goes to the slice that the view was made with, node by node. No call's work grows with the number of
/// orders or nodes, only with the depth of the tree, which is 128 at most.
impl SideBook for SlabView<'_> {
    ghost use Rattle.std.proofs.Common.{refl, ◌∙◌, ◌≡◌};
    ghost use Rattle.dex_slab.specs.Changes.{KeepsFrame};
    ghost use Rattle.dex_slab.specs.SamePlace.{frame_chains, frame_stays};

    ghost same_place = { λ old new. (new.bytes.ghost_name ≡ old.bytes.ghost_name)
        × KeepsFrame old.bytes.now new.bytes.now };

    ghost stays = { λ s. (refl, frame_stays s.bytes.now) };

    ghost chains = { λ first second third here there.
        (there.0 ∙ here.0, frame_chains first.bytes.now second.bytes.now third.bytes.now here.1 there.1) };

    /// Puts an order in its place. At most three nodes change, beside the slab's header. A new node is the first of the
    /// free list, else the first that was never used.
    fn insert(&mut self, order: Order)
        // The side has room for one more, and the order is a new one.
        requires holds { IsSlab self.old.bytes.now }
        requires new { IsNewId order.id (resting self.old.side self.old.bytes.now) }
        requires can_rest { CanRest order }
        requires room { length (resting self.old.side self.old.bytes.now) < room_in self.old.bytes.now }

        // It stands among the others, in book order. Side, room and place stay.
        ensures orders { resting self.new.side self.new.bytes.now
            ≡ posted self.old.side order (resting self.old.side self.old.bytes.now) }
        ensures holds { IsSlab self.new.bytes.now }
        ensures side { self.new.side ≡ self.old.side }
        ensures room { room_in self.new.bytes.now ≡ room_in self.old.bytes.now }
        ensures place { (self.new.bytes.ghost_name ≡ self.old.bytes.ghost_name)
            × KeepsFrame self.old.bytes.now self.new.bytes.now }

        // Nodes are taken from the free list first, and no more than three change.
        ensures bump { bump_of self.new.bytes.now ≡ bump_of self.old.bytes.now
            + (nodes_taken (count_of self.old.bytes.now) - free_len_of self.old.bytes.now) }
        ensures freed { free_len_of self.new.bytes.now
            ≡ free_len_of self.old.bytes.now - nodes_taken (count_of self.old.bytes.now) }
        ensures three { ChangesThreeNodes self.old.bytes.now self.new.bytes.now }
    {
        insert_order(self.bytes, order);
    }

    /// Gives the resting order of an id other lots, not 0. Only the eight bytes of its leaf that hold them change.
    fn set_lots(&mut self, id: u128, lots: u64)
        requires holds { IsSlab self.old.bytes.now }
        requires rests { IsSome (order_with id (resting self.old.side self.old.bytes.now)) }
        requires lots { 1 ≤ lots }
        ensures orders { resting self.new.side self.new.bytes.now
            ≡ with_lots id lots (resting self.old.side self.old.bytes.now) }
        ensures holds { IsSlab self.new.bytes.now }
        ensures side { self.new.side ≡ self.old.side }
        ensures room { room_in self.new.bytes.now ≡ room_in self.old.bytes.now }
        ensures place { (self.new.bytes.ghost_name ≡ self.old.bytes.ghost_name)
            × KeepsFrame self.old.bytes.now self.new.bytes.now }
        ensures eight { ChangesLotsOf id self.old.bytes.now self.new.bytes.now }
    {
        set_order_lots(self.bytes, id, lots);
    }

    /// Takes the resting order of an id off the side, and answers it. At most three nodes change, beside the slab's
    /// header; its nodes are free again.
    fn remove(&mut self, id: u128) -> Order
        requires holds { IsSlab self.old.bytes.now }
        requires rests { IsSome (order_with id (resting self.old.side self.old.bytes.now)) }

        // The order is off the side. Side, room and place stay.
        ensures order { order_with id (resting self.old.side self.old.bytes.now) ≡ Some result }
        ensures orders { resting self.new.side self.new.bytes.now
            ≡ without_order id (resting self.old.side self.old.bytes.now) }
        ensures holds { IsSlab self.new.bytes.now }
        ensures side { self.new.side ≡ self.old.side }
        ensures room { room_in self.new.bytes.now ≡ room_in self.old.bytes.now }
        ensures place { (self.new.bytes.ghost_name ≡ self.old.bytes.ghost_name)
            × KeepsFrame self.old.bytes.now self.new.bytes.now }

        // Its nodes are given back to the free list, and no more than three change.
        ensures bump { bump_of self.new.bytes.now ≡ bump_of self.old.bytes.now }
        ensures freed { free_len_of self.new.bytes.now
            ≡ free_len_of self.old.bytes.now + nodes_given (count_of self.old.bytes.now) }
        ensures three { ChangesThreeNodes self.old.bytes.now self.new.bytes.now }
    {
        remove_order(self.bytes, id)
    }
}
