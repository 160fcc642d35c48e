//! Taking one order off its side.

ghost use Rattle.std.specs.Prelude.{◌≡◌, ◌<◌, ◌^◌, [], ◌∷◌, Some};
ghost use Rattle.dex_types.specs.Cancel.{order_with};
ghost use Rattle.dex_types.specs.Owed.{order_lock};
ghost use Rattle.dex_accounts.specs.Keeps.{KeepsSide};
ghost use Rattle.dex_cancel.specs.TakenOff.{CanLeaveSide, HaveLeftSide, side_handed};

use dex_fills::ring_events::push_releasing_out;
use dex_ring::RingView;
use dex_types::{Lots, Order, Side, SideBook};

/// Takes a resting order off its side and appends its out.
pub fn take_off<S: SideBook>(
    order: Order,
    side: Side,
    sizes: Lots,
    book: &mut S,
    ring: &mut RingView<'_>,
)
    requires holds { S.holds book.old }
    requires can { CanLeaveSide (record { side = side; order = order } ∷ [])
        (side_handed sizes side S.orders book.old ring.old) }
    requires rests { order_with order.id (S.orders book.old) ≡ Some order }
    requires fits { order_lock side sizes order < 2 ^ 64 }
    ensures left { HaveLeftSide (record { side = side; order = order } ∷ [])
        (side_handed sizes side S.orders book.old ring.old)
        (side_handed sizes side S.orders book.new ring.new) }
    ensures book { KeepsSide S.holds S.same_place S.side S.room book.old book.new }
    ensures place { ring.new.bytes.ghost_name ≡ ring.old.bytes.ghost_name }
{
    let _ = book.remove(order.id);
    push_releasing_out(ring, side, sizes, order, order.lots);
}
