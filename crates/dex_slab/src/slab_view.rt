//! A side of the book over account bytes, for reading and for writing in place.

ghost use Rattle.std.specs.Prelude.{◌≡◌};

use crate::SlabRef;
use dex_types::{Order, Side, SideRead};

/// A side of the book, for reading and for writing in place: the bytes of its account, and which side it is.
#[derive(Debug, Drop)]
pub struct SlabView<'a> {
    pub bytes: &'a mut [u8],
    pub side: Side,
}

impl SlabView<'_> {
    /// The side, for reading.
    fn as_ref(&self) -> SlabRef<'_>
        ensures bytes { result.bytes.now ≡ self.now.bytes.now }
        ensures side { result.side ≡ self.now.side }
    {
        SlabRef {
            bytes: self.bytes,
            side: self.side,
        }
    }
}

impl SideRead for SlabView<'_> {
    ghost use Rattle.dex_slab.specs.Slab.{IsSlab, resting, room_in};
    ghost use Rattle.dex_slab.specs.SlabSide.{slab_side};

    ghost side = { λ s. s.side };

    ghost orders = { λ s. resting s.side s.bytes.now };

    ghost room = { λ s. room_in s.bytes.now };

    ghost holds = { λ s. IsSlab s.bytes.now };

    ghost is_book_side = { λ s held. slab_side s.side s.bytes.now held };

    fn count(&self) -> u32 {
        self.as_ref().count()
    }

    fn capacity(&self) -> u32 {
        self.as_ref().capacity()
    }

    fn best(&self) -> Option<Order> {
        self.as_ref().best()
    }

    fn worst(&self) -> Option<Order> {
        self.as_ref().worst()
    }

    fn find(&self, id: u128) -> Option<Order> {
        self.as_ref().find(id)
    }

    fn after(&self, id: u128) -> Option<Order> {
        self.as_ref().after(id)
    }
}
