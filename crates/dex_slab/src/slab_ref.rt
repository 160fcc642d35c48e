//! A side of the book over account bytes, for reading.

ghost use Rattle.std.specs.Prelude.{◌≡◌, [], MatchOption};
ghost use Rattle.dex_slab.specs.Below.{IsRoot};
ghost use Rattle.dex_slab.specs.Slab.{IsSlab, resting};

use crate::behind::part_behind;
use crate::nodes::{nodes_within, order_of};
use crate::search::{first_leaf, leaf_towards};
use dex_fields::slab::{LEAF_COUNT, ROOT_NODE};
use dex_fields::{get_u32, get_u64};
use dex_types::{Order, Side, SideRead};

/// A side of the book, for reading: the bytes of its account, and which side it is.
#[derive(Clone, Copy, Debug)]
pub struct SlabRef<'a> {
    pub bytes: &'a [u8],
    pub side: Side,
}

impl SlabRef<'_> {
    /// The root, unless no order rests.
    fn root(&self) -> Option<u32>
        requires { IsSlab self.now.bytes.now }
        ensures { MatchOption result (resting self.now.side self.now.bytes.now ≡ []) (IsRoot self.now.bytes.now) }
    {
        if self.count() == 0 {
            None
        } else {
            Some(get_u32(self.bytes, ROOT_NODE))
        }
    }
}

/// The account's bytes are a slab; no call's work grows with the number of orders or nodes, only with the depth of the
/// tree, which is 128 at most.
impl SideRead for SlabRef<'_> {
    ghost use Rattle.dex_slab.specs.Slab.{IsSlab, resting, room_in};
    ghost use Rattle.dex_slab.specs.SlabSide.{slab_side};

    ghost side = { λ s. s.side };

    ghost orders = { λ s. resting s.side s.bytes.now };

    ghost room = { λ s. room_in s.bytes.now };

    ghost holds = { λ s. IsSlab s.bytes.now };

    ghost is_book_side = { λ s held. slab_side s.side s.bytes.now held };

    fn count(&self) -> u32 {
        get_u64(self.bytes, LEAF_COUNT) as u32
    }

    fn capacity(&self) -> u32 {
        nodes_within(self.bytes.len()).div_ceil(2) as u32
    }

    fn best(&self) -> Option<Order> {
        let leaf = first_leaf(self.bytes, self.side, self.root()?);
        Some(order_of(self.bytes, leaf))
    }

    /// The first as the other side would have them.
    fn worst(&self) -> Option<Order> {
        SlabRef {
            bytes: self.bytes,
            side: self.side.opposite(),
        }
        .best()
    }

    fn find(&self, id: u128) -> Option<Order> {
        let leaf = leaf_towards(self.bytes, self.root()?, id);
        Some(order_of(self.bytes, leaf)).filter(|order| order.id == id)
    }

    fn after(&self, id: u128) -> Option<Order> {
        let part = part_behind(self.bytes, self.side, self.root()?, id)?;
        let leaf = first_leaf(self.bytes, self.side, part);
        Some(order_of(self.bytes, leaf))
    }
}
