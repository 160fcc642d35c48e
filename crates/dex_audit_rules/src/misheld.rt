//! The rule of slots that orders rest for: each holds the order.

ghost use Rattle.std.specs.Prelude.{◌≡◌, ◌<◌, ◌++◌, [], ◌∷◌, length, ◌&&◌, not, OnOk};
ghost use Rattle.dex_types.specs.Market.{Market};
ghost use Rattle.dex_types.specs.Soundness.{order_holding};
ghost use Rattle.dex_laws.specs.Places.{is_order_at};
ghost use Rattle.dex_orders.specs.OrdersAccount.{IsOpen, account_of};
ghost use Rattle.dex_audit_rules.specs.Books.{IsBook};
ghost use Rattle.dex_audit_rules.specs.Lists.{numbered};
ghost use Rattle.dex_audit_rules.specs.Own.{IsOwnOf};
ghost use Rattle.dex_totals.specs.Held.{is_held};
ghost use Rattle.dex_totals.specs.Reading.{held_in};
ghost use Rattle.dex_audit_rules.specs.Slots as rules;

use crate::finding::Finding;
use crate::own::Own;
use dex_orders::OrdersRef;
use dex_totals::{id_held, is_held, opened};
use dex_types::{Address, NoMemory, Order, Side, add, is_same};

/// Whether the order rests for the place, and what the place holds is another.
fn is_unheld(
    owner: Address,
    slot: u8,
    held: Option<(u128, Side, u64)>,
    side: Side,
    order: &Order,
) -> bool
    ensures { result ≡ (is_order_at owner slot order.now
        && not (is_held (held_in held) (order_holding side order.now))) }
{
    let here = is_same(owner, order.owner) && slot == order.slot;
    here && !is_held(held, order.id, side, order.client)
}

/// Notes the order at its slot, where the slot does not hold it and none is noted there.
fn note_own(
    first: &mut [Option<u128>],
    view: OrdersRef<'_>,
    owner: Address,
    side: Side,
    order: &Order,
)
    requires open { IsOpen view.bytes.now }
    requires long { length first.old ≡ 128 }
    requires slot { order.now.slot < 128 }
    ensures long { length first.new ≡ 128 }
    ensures each { rules.AreNoted owner (account_of view.entry.bytes.now) side (order.now ∷ []) first.old first.new }
{
    let slot = order.slot as usize;
    let held = view.slot(order.slot);
    if first[slot].is_none() && is_unheld(owner, order.slot, held, side, order) {
        first[slot] = Some(order.id);
    }
}

/// Notes the order at its slot, where it is the account's, the slot does not hold it, and none is noted there.
fn note(first: &mut [Option<u128>], view: OrdersRef<'_>, owner: Address, side: Side, order: &Order)
    requires open { IsOpen view.bytes.now }
    requires long { length first.old ≡ 128 }
    ensures long { length first.new ≡ 128 }
    ensures each { rules.AreNoted owner (account_of view.entry.bytes.now) side (order.now ∷ []) first.old first.new }
{
    if is_same(owner, order.owner) && order.slot < 128 {
        note_own(first, view, owner, side, order);
    }
}

/// Notes at each slot of an open account the first order of a side that rests for it and that it does not hold, where
/// none is noted there.
fn note_side(
    first: &mut [Option<u128>],
    view: OrdersRef<'_>,
    owner: Address,
    side: Side,
    orders: &[Order],
)
    requires open { IsOpen view.bytes.now }
    requires long { length first.old ≡ 128 }
    ensures long { length first.new ≡ 128 }
    ensures each { rules.AreNoted owner (account_of view.entry.bytes.now) side orders.now first.old first.new }
{
    for place in 0..orders.len() {
        note(first, view, owner, side, &orders[place]);
    }
}

/// Tells a slot for which this order was noted.
fn tell_slot(
    found: &mut Vec<Finding>,
    owner: Address,
    slot: u8,
    held: Option<(u128, Side, u64)>,
    first: Option<u128>,
) -> Result<(), NoMemory>
    ensures { OnOk result (found.new.items
        ≡ found.old.items ++ rules.unheld_finding owner slot (held_in held) first) }
{
    if let Some(id) = first {
        let finding = Finding {
            kind: 2,
            account: owner,
            place: u32::from(slot),
            found: id_held(held),
            wanted: id,
        };
        add(found, finding)?;
    }
    Ok(())
}

/// Tells each slot of an open account that does not hold an order that rests for it.
fn tell_slots(
    found: &mut Vec<Finding>,
    own: &Own<'_>,
    owner: Address,
    view: OrdersRef<'_>,
) -> Result<(), NoMemory>
    requires { IsOpen view.bytes.now }
    ensures { (m : Market) → IsOwnOf own.now m → OnOk result (found.new.items ≡ found.old.items
        ++ numbered (rules.misheld m.bids m.asks owner) 0 (account_of view.entry.bytes.now).slots) }
{
    let mut first = [None; 128];
    note_side(&mut first, view, owner, Side::Bid, own.bids.of(owner));
    note_side(&mut first, view, owner, Side::Ask, own.asks.of(owner));
    for slot in 0..128u8 {
        tell_slot(found, owner, slot, view.slot(slot), first[slot as usize])?;
    }
    Ok(())
}

/// Tells each slot of open accounts that does not hold an order that rests for it, with the first such order, bids
/// before asks. Each account walks its own orders.
pub fn tell_misheld(found: &mut Vec<Finding>, own: &Own<'_>) -> Result<(), NoMemory>
    requires { IsBook own.now.book }
    ensures { (m : Market) → IsOwnOf own.now m
        → OnOk result (found.new.items ≡ found.old.items ++ rules.misheld_in m) }
{
    for account in own.book.accounts {
        if let Some(view) = opened(&account.bytes) {
            tell_slots(found, own, account.address, view)?;
        }
    }
    Ok(())
}
