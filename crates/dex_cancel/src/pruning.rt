//! Taking an account's first orders off the sides, in one walk along each.

ghost use Rattle.std.specs.Prelude.{◌≡◌, ◌<◌, ◌^◌, [], ◌∷◌, Some, length, take};
ghost use Rattle.dex_types.specs.Cancel.{all_orders_of, order_with, orders_of};
ghost use Rattle.dex_types.specs.Owed.{order_lock};
ghost use Rattle.dex_accounts.specs.Keeps.{KeepsSide};
ghost use Rattle.dex_cancel.specs.TakenOff.{CanLeave, CanLeaveSide, DoOrdersFit, HaveGone, HaveLeftSide, handed, side_handed};

use crate::taking::take_off;
use dex_ring::RingView;
use dex_types::{Address, Lots, Order, Side, SideBook, is_same};

/// Takes a resting order off its side and appends its out, if it is the account's. It answers how many orders that is.
fn take_own<S: SideBook>(
    order: Order,
    side: Side,
    account: Address,
    sizes: Lots,
    book: &mut S,
    ring: &mut RingView<'_>,
) -> u32
    requires holds { S.holds book.old }
    requires can { CanLeaveSide (orders_of account side (order ∷ []))
        (side_handed sizes side S.orders book.old ring.old) }
    requires rests { order_with order.id (S.orders book.old) ≡ Some order }
    requires fits { order_lock side sizes order < 2 ^ 64 }
    ensures count { result ≡ length (orders_of account side (order ∷ [])) }
    ensures left { HaveLeftSide (orders_of account side (order ∷ []))
        (side_handed sizes side S.orders book.old ring.old)
        (side_handed sizes side S.orders book.new ring.new) }
    ensures book { KeepsSide S.holds S.same_place S.side S.room book.old book.new }
    ensures place { ring.new.bytes.ghost_name ≡ ring.old.bytes.ghost_name }
{
    if !is_same(account, order.owner) {
        return 0;
    }
    take_off(order, side, sizes, book, ring);
    1
}

/// Takes the account's first orders on a side, up to the limit, and appends their outs. It answers how many there were.
fn prune_side<S: SideBook>(
    side: Side,
    limit: u32,
    account: Address,
    sizes: Lots,
    book: &mut S,
    ring: &mut RingView<'_>,
) -> u32
    requires holds { S.holds book.old }
    requires can { CanLeaveSide (take limit (orders_of account side (S.orders book.old)))
        (side_handed sizes side S.orders book.old ring.old) }
    requires locks { DoOrdersFit side sizes (S.orders book.old) }
    ensures count { result ≡ length (take limit (orders_of account side (S.orders book.old))) }
    ensures left { HaveLeftSide (take limit (orders_of account side (S.orders book.old)))
        (side_handed sizes side S.orders book.old ring.old)
        (side_handed sizes side S.orders book.new ring.new) }
    ensures book { KeepsSide S.holds S.same_place S.side S.room book.old book.new }
    ensures place { ring.new.bytes.ghost_name ≡ ring.old.bytes.ghost_name }
{
    let mut count = 0;
    let mut next = book.best();
    'orders: while let Some(order) = next {
        if count == limit {
            return count;
        }
        next = book.after(order.id);
        count += take_own(order, side, account, sizes, book, ring);
    }
    count
}

/// Takes the account's first orders, up to the limit, and appends their outs. It answers how many there were.
pub fn prune<B: SideBook, A: SideBook>(
    limit: u16,
    account: Address,
    sizes: Lots,
    bids: &mut B,
    asks: &mut A,
    ring: &mut RingView<'_>,
) -> u32
    requires bids { B.holds bids.old }
    requires asks { A.holds asks.old }
    requires can { CanLeave (take limit (all_orders_of account (B.orders bids.old) (A.orders asks.old)))
        (handed sizes B.orders A.orders bids.old asks.old ring.old) }
    ensures { let gone = take limit (all_orders_of account (B.orders bids.old) (A.orders asks.old)) in
        HaveGone B.holds B.same_place B.side B.room B.orders A.holds A.same_place A.side A.room A.orders gone result sizes
        bids.old bids.new asks.old asks.new ring.old ring.new }
{
    let limit = u32::from(limit);
    let taken = prune_side(Side::Bid, limit, account, sizes, bids, ring);
    taken + prune_side(Side::Ask, limit - taken, account, sizes, asks, ring)
}
