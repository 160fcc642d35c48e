//! Taking orders off the sides, and appending their outs.

ghost use Rattle.std.specs.Prelude.{◌≡◌, [], ◌∷◌, IsOk, length, take};
ghost use Rattle.dex_types.specs.Cancel.{all_orders_of, at_most_one, cancelled, oldest, on_side, order_with, taken_by_all};
ghost use Rattle.dex_types.specs.Side.{by_side};
ghost use Rattle.dex_ring.specs.Ring.{ring_of, room_of};
ghost use Rattle.dex_accounts.specs.Keeps.{KeepsEvents, KeepsSide};
ghost use Rattle.dex_cancel.specs.Cancelling.{decided, named_by};
ghost use Rattle.dex_cancel.specs.Finding.{maybe_resting, resting};
ghost use Rattle.dex_cancel.specs.TakenOff.{CanLeave, DoRest, HaveGone, HaveLeft, handed, queue_of, with_outs};
ghost use Rattle.dex_cancel.specs.Parts.{AreOfSoundMarket, left_by, named_in};

use crate::finding::{find_named, find_oldest, find_on};
use crate::found::{Found, found_on};
use crate::pruning::prune;
use crate::taking::take_off;
use crate::what::CancelWhat;
use dex_ring::RingView;
use dex_types::{Address, ClientIds, Lots, Side, SideBook};

/// Takes an order off its side and appends its out.
fn cancel_found<B: SideBook, A: SideBook>(
    found: Found,
    sizes: Lots,
    bids: &mut B,
    asks: &mut A,
    ring: &mut RingView<'_>,
)
    requires bids { B.holds bids.old }
    requires asks { A.holds asks.old }
    requires can { CanLeave (resting found ∷ [])
        (handed sizes B.orders A.orders bids.old asks.old ring.old) }
    requires rests { DoRest (resting found ∷ []) (B.orders bids.old) (A.orders asks.old) }
    ensures left { HaveLeft (resting found ∷ [])
        (handed sizes B.orders A.orders bids.old asks.old ring.old)
        (handed sizes B.orders A.orders bids.new asks.new ring.new) }
    ensures bids { KeepsSide B.holds B.same_place B.side B.room bids.old bids.new }
    ensures asks { KeepsSide A.holds A.same_place A.side A.room asks.old asks.new }
    ensures place { ring.new.bytes.ghost_name ≡ ring.old.bytes.ghost_name }
{
    match found.side {
        Side::Bid => take_off(found.order, Side::Bid, sizes, bids, ring),
        Side::Ask => take_off(found.order, Side::Ask, sizes, asks, ring),
    }
}

/// Takes an order, if there is one, off its side and appends its out. It answers how many orders that is.
pub fn cancel_maybe<B: SideBook, A: SideBook>(
    found: Option<Found>,
    sizes: Lots,
    bids: &mut B,
    asks: &mut A,
    ring: &mut RingView<'_>,
) -> u32
    requires bids { B.holds bids.old }
    requires asks { A.holds asks.old }
    requires can { CanLeave (at_most_one (maybe_resting found))
        (handed sizes B.orders A.orders bids.old asks.old ring.old) }
    requires rests { DoRest (at_most_one (maybe_resting found)) (B.orders bids.old) (A.orders asks.old) }
    ensures { let gone = at_most_one (maybe_resting found) in
        HaveGone B.holds B.same_place B.side B.room B.orders A.holds A.same_place A.side A.room A.orders gone result sizes
        bids.old bids.new asks.old asks.new ring.old ring.new }
{
    match found {
        Some(found) => {
            cancel_found(found, sizes, bids, asks, ring);
            1
        }
        None => 0,
    }
}

/// Takes the order of an id, if it rests on the side, and appends its out. It answers how many orders that is.
pub fn cancel_by_id<B: SideBook, A: SideBook>(
    side: Side,
    id: u128,
    sizes: Lots,
    bids: &mut B,
    asks: &mut A,
    ring: &mut RingView<'_>,
) -> u32
    requires bids { B.holds bids.old }
    requires asks { A.holds asks.old }
    requires can { CanLeave (on_side side (order_with id (by_side side (B.orders bids.old) (A.orders asks.old))))
        (handed sizes B.orders A.orders bids.old asks.old ring.old) }
    ensures { let gone = on_side side (order_with id (by_side side (B.orders bids.old) (A.orders asks.old))) in
        HaveGone B.holds B.same_place B.side B.room B.orders A.holds A.same_place A.side A.room A.orders gone result sizes
        bids.old bids.new asks.old asks.new ring.old ring.new }
{
    let found = found_on(side, find_on(bids, asks, side, id));
    cancel_maybe(found, sizes, bids, asks, ring)
}

/// Takes the account's oldest order of a client id, if it has one, and appends its out. It answers how many orders that
/// is.
fn cancel_oldest<B: SideBook, A: SideBook>(
    client: u64,
    account: Address,
    sizes: Lots,
    bids: &mut B,
    asks: &mut A,
    ring: &mut RingView<'_>,
) -> u32
    requires bids { B.holds bids.old }
    requires asks { A.holds asks.old }
    requires can { CanLeave (at_most_one (oldest client
        (all_orders_of account (B.orders bids.old) (A.orders asks.old))))
        (handed sizes B.orders A.orders bids.old asks.old ring.old) }
    ensures { let gone = at_most_one (oldest client (all_orders_of account (B.orders bids.old) (A.orders asks.old))) in
        HaveGone B.holds B.same_place B.side B.room B.orders A.holds A.same_place A.side A.room A.orders gone result sizes
        bids.old bids.new asks.old asks.new ring.old ring.new }
{
    let found = find_oldest(bids, asks, account, client);
    cancel_maybe(found, sizes, bids, asks, ring)
}

/// Takes the account's oldest order of each of the client ids in order, and appends their outs. It passes over zeros,
/// and over client ids without a resting order, and answers how many orders there were.
fn cancel_listed<B: SideBook, A: SideBook>(
    ids: &ClientIds,
    account: Address,
    sizes: Lots,
    bids: &mut B,
    asks: &mut A,
    ring: &mut RingView<'_>,
) -> u32
    requires bids { B.holds bids.old }
    requires asks { A.holds asks.old }
    requires can { CanLeave (taken_by_all (take ids.now.count ids.now.ids)
        (all_orders_of account (B.orders bids.old) (A.orders asks.old)))
        (handed sizes B.orders A.orders bids.old asks.old ring.old) }
    ensures { let gone = taken_by_all (take ids.now.count ids.now.ids)
        (all_orders_of account (B.orders bids.old) (A.orders asks.old)) in
        HaveGone B.holds B.same_place B.side B.room B.orders A.holds A.same_place A.side A.room A.orders gone result sizes
        bids.old bids.new asks.old asks.new ring.old ring.new }
{
    let mut count = 0;
    for place in 0..usize::from(ids.count) {
        let found = find_named(bids, asks, account, ids.ids[place]);
        count += cancel_maybe(found, sizes, bids, asks, ring);
    }
    count
}

/// Takes the orders that a cancel names, and appends their outs. It answers how many they were.
pub(crate) fn cancel_all<B: SideBook, A: SideBook>(
    what: &CancelWhat,
    account: Address,
    sizes: Lots,
    bids: &mut B,
    asks: &mut A,
    ring: &mut RingView<'_>,
) -> u32
    requires bids { B.holds bids.old }
    requires asks { A.holds asks.old }
    requires can { CanLeave (cancelled (named_by what.now) account (B.orders bids.old) (A.orders asks.old))
        (handed sizes B.orders A.orders bids.old asks.old ring.old) }
    ensures { let gone = cancelled (named_by what.now) account (B.orders bids.old) (A.orders asks.old) in
        HaveGone B.holds B.same_place B.side B.room B.orders A.holds A.same_place A.side A.room A.orders gone result sizes
        bids.old bids.new asks.old asks.new ring.old ring.new }
{
    match what {
        CancelWhat::ById { side, id } => cancel_by_id(*side, *id, sizes, bids, asks, ring),
        CancelWhat::ByClient(client) => cancel_oldest(*client, account, sizes, bids, asks, ring),
        CancelWhat::ByClients(ids) => cancel_listed(ids, account, sizes, bids, asks, ring),
        CancelWhat::Prune(limit) => prune(*limit, account, sizes, bids, asks, ring),
    }
}

/// Takes the orders that a cancel names off the two sides, one after the other, appends for each an out that releases
/// all that it locked, and answers how many they were. `sizes` are the market's lot sizes.
pub fn apply_cancel<B: SideBook, A: SideBook>(
    what: &CancelWhat,
    account: Address,
    sizes: Lots,
    bids: &mut B,
    asks: &mut A,
    ring: &mut RingView<'_>,
) -> u32
    // The cancel was decided on a sound market.
    requires bids { B.holds bids.old }
    requires asks { A.holds asks.old }
    requires market { AreOfSoundMarket (handed sizes B.orders A.orders bids.old asks.old ring.old) }
    requires decided { IsOk (decided (named_by what.now) account (B.orders bids.old) (A.orders asks.old)
        (room_of (ring_of ring.old.bytes.now))) }

    // The orders that it names are gone, in the bytes and as they are read.
    ensures count { let before = handed sizes B.orders A.orders bids.old asks.old ring.old in
        result ≡ length (named_in (named_by what.now) account before) }
    ensures does { let before = handed sizes B.orders A.orders bids.old asks.old ring.old in
        handed sizes B.orders A.orders bids.new asks.new ring.new
        ≡ left_by (named_in (named_by what.now) account before) before }
    ensures events { let before = handed sizes B.orders A.orders bids.old asks.old ring.old in
        ring_of ring.new.bytes.now ≡ (with_outs sizes (named_in (named_by what.now) account before)
        (queue_of before.queue)).list }

    // Sides and queue stay where they lie.
    ensures bids { KeepsSide B.holds B.same_place B.side B.room bids.old bids.new }
    ensures asks { KeepsSide A.holds A.same_place A.side A.room asks.old asks.new }
    ensures ring { KeepsEvents ring.old ring.new }
{
    cancel_all(what, account, sizes, bids, asks, ring)
}
