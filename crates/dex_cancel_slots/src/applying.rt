//! Taking orders off the sides, and appending their outs.

ghost use Rattle.std.specs.Prelude.{◌≡◌, IsOk, length};
ghost use Rattle.dex_orders.specs.OrdersAccount.{IsOpen};
ghost use Rattle.dex_ring.specs.Ring.{ring_of, room_of};
ghost use Rattle.dex_accounts.specs.Keeps.{KeepsEvents, KeepsSide};
ghost use Rattle.dex_cancel.specs.Cancelling.{decided, named_by};
ghost use Rattle.dex_cancel.specs.TakenOff.{CanLeave, handed, queue_of, with_outs};
ghost use Rattle.dex_cancel.specs.Parts.{cancel_given, left_by, named_in};
ghost use Rattle.dex_cancel_slots.specs.Cancels.{HaveLeftSo};
ghost use Rattle.dex_cancel_slots.specs.Given.{IsGiven, slots_in};
ghost use Rattle.dex_cancel_slots.specs.Slots.{DoSlotsName};

use crate::finding::find_oldest;
use crate::owned::Owner;
use crate::pruning::prune_side;
use dex_cancel::CancelWhat;
use dex_cancel::steps::{cancel_by_id, cancel_maybe};
use dex_ring::RingView;
use dex_types::{Lots, Side, SideBook};

/// Takes the orders that a cancel names, and appends their outs. It answers how many they were.
fn cancel_all<B: SideBook, A: SideBook>(
    what: &CancelWhat,
    owner: Owner<'_>,
    sizes: Lots,
    bids: &mut B,
    asks: &mut A,
    ring: &mut RingView<'_>,
) -> u32
    requires open { IsOpen owner.orders.bytes.now }
    requires bids { B.holds bids.old }
    requires asks { A.holds asks.old }
    requires names { DoSlotsName owner.account (slots_in owner.orders) (B.orders bids.old) (A.orders asks.old) }
    requires can { let before = handed sizes B.orders A.orders bids.old asks.old ring.old in
        CanLeave (named_in (named_by what.now) owner.account before) before }
    ensures does { let before = handed sizes B.orders A.orders bids.old asks.old ring.old in
        let after = handed sizes B.orders A.orders bids.new asks.new ring.new in
        HaveLeftSo (named_in (named_by what.now) owner.entry.account before) before after result }
    ensures bids { KeepsSide B.holds B.same_place B.side B.room bids.old bids.new }
    ensures asks { KeepsSide A.holds A.same_place A.side A.room asks.old asks.new }
    ensures place { ring.new.bytes.ghost_name ≡ ring.old.bytes.ghost_name }
{
    match what {
        CancelWhat::ById { side, id } => cancel_by_id(*side, *id, sizes, bids, asks, ring),
        CancelWhat::ByClient(client) => {
            let found = find_oldest(owner, bids, asks, *client);
            cancel_maybe(found, sizes, bids, asks, ring)
        }
        CancelWhat::ByClients(ids) => {
            let mut count = 0;
            for place in 0..usize::from(ids.count) {
                let client = ids.ids[place];
                let found = if client == 0 {
                    None
                } else {
                    find_oldest(owner, bids, asks, client)
                };
                count += cancel_maybe(found, sizes, bids, asks, ring);
            }
            count
        }
        CancelWhat::Prune(limit) => {
            let limit = u32::from(*limit);
            let taken = prune_side(Side::Bid, limit, owner, sizes, bids, ring);
            taken + prune_side(Side::Ask, limit - taken, owner, sizes, asks, ring)
        }
    }
}

/// Takes the orders that a cancel names off the two sides, one after the other, appends for each an out that releases
/// all that it locked, and answers how many they were: all as `apply_cancel` does it, the orders found by the slots of
/// the account. `sizes` are the market's lot sizes.
pub fn apply_cancel_by_slots<B: SideBook, A: SideBook>(
    what: &CancelWhat,
    owner: Owner<'_>,
    sizes: Lots,
    bids: &mut B,
    asks: &mut A,
    ring: &mut RingView<'_>,
) -> u32
    // The cancel was decided on a sound market.
    requires bids { B.holds bids.old }
    requires asks { A.holds asks.old }
    requires market { let before = handed sizes B.orders A.orders bids.old asks.old ring.old in
        IsGiven cancel_given before owner.account owner.orders.bytes.now }
    requires decided { let room = room_of (ring_of ring.old.bytes.now) in
        IsOk (decided (named_by what.now) owner.account (B.orders bids.old) (A.orders asks.old) room) }

    // The orders that it names are gone, in the bytes and as they are read.
    ensures count { let before = handed sizes B.orders A.orders bids.old asks.old ring.old in
        result ≡ length (named_in (named_by what.now) owner.entry.account before) }
    ensures does { let before = handed sizes B.orders A.orders bids.old asks.old ring.old in
        let after = handed sizes B.orders A.orders bids.new asks.new ring.new in
        after ≡ left_by (named_in (named_by what.now) owner.entry.account before) before }
    ensures events { let before = handed sizes B.orders A.orders bids.old asks.old ring.old in
        let gone = named_in (named_by what.now) owner.entry.account before in
        ring_of ring.new.bytes.now ≡ (with_outs sizes gone (queue_of before.queue)).list }

    // Sides and queue stay where they lie.
    ensures bids { KeepsSide B.holds B.same_place B.side B.room bids.old bids.new }
    ensures asks { KeepsSide A.holds A.same_place A.side A.room asks.old asks.new }
    ensures ring { KeepsEvents ring.old ring.new }
{
    cancel_all(what, owner, sizes, bids, asks, ring)
}
