//! Taking an account's first orders off the sides, the next one found by its slots each time.

ghost use Rattle.std.specs.Prelude.{◌≡◌, length, take};
ghost use Rattle.dex_types.specs.Cancel.{orders_of};
ghost use Rattle.dex_orders.specs.OrdersAccount.{IsOpen};
ghost use Rattle.dex_accounts.specs.Keeps.{KeepsSide};
ghost use Rattle.dex_cancel.specs.TakenOff.{CanLeaveSide, DoOrdersFit, HaveLeftSide, side_handed};
ghost use Rattle.dex_cancel_slots.specs.Given.{slots_in};
ghost use Rattle.dex_cancel_slots.specs.Slots.{DoSlotsNameOn};

use crate::first_own::first_own;
use crate::owned::Owner;
use dex_cancel::steps::take_off;
use dex_ring::RingView;
use dex_types::{Lots, Side, SideBook};

/// Takes the account's first orders on a side, up to the limit, and appends their outs. It answers how many there were.
pub fn prune_side<S: SideBook>(
    side: Side,
    limit: u32,
    owner: Owner<'_>,
    sizes: Lots,
    book: &mut S,
    ring: &mut RingView<'_>,
) -> u32
    requires open { IsOpen owner.orders.bytes.now }
    requires holds { S.holds book.old }
    requires names { DoSlotsNameOn owner.account (slots_in owner.orders) side (S.orders book.old) }
    requires can { let before = side_handed sizes side S.orders book.old ring.old in
        CanLeaveSide (take limit (orders_of owner.account side before.orders)) before }
    requires locks { DoOrdersFit side sizes (S.orders book.old) }
    ensures count { result ≡ length (take limit (orders_of owner.entry.account side (S.orders book.old))) }
    ensures left { let before = side_handed sizes side S.orders book.old ring.old in
        let after = side_handed sizes side S.orders book.new ring.new in
        HaveLeftSide (take limit (orders_of owner.entry.account side before.orders)) before after }
    ensures book { KeepsSide S.holds S.same_place S.side S.room book.old book.new }
    ensures place { ring.new.bytes.ghost_name ≡ ring.old.bytes.ghost_name }
{
    let mut count = 0;
    let mut last = None;
    'slots: while count < limit {
        let Some(order) = first_own(owner, side, last, book) else {
            return count;
        };
        last = Some(order.id);
        take_off(order, side, sizes, book, ring);
        count += 1;
    }
    count
}
