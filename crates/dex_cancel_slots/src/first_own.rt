//! The order that comes first of those that an account has on a side, found slot by slot.

ghost use Rattle.std.specs.Prelude.{◌≡◌};
ghost use Rattle.std.specs.List.{All};
ghost use Rattle.dex_orders.specs.OrdersAccount.{IsOpen};
ghost use Rattle.dex_cancel_slots.specs.FirstOwn as own;
ghost use Rattle.dex_cancel_slots.specs.FirstOwn.{IsFirstOwn, StandsBehind};
ghost use Rattle.dex_cancel_slots.specs.Given.{slots_in};
ghost use Rattle.dex_cancel_slots.specs.Slots.{DoSlotsNameOn};

use crate::owned::Owner;
use crate::taken::{id_at, next_set, side_bits};
use dex_fills::prices::precedes;
use dex_types::{Order, Side, SideRead};

/// The id comes after the last one, where there is one.
fn is_behind(side: Side, last: Option<u128>, id: u128) -> bool
    ensures { result ≡ own.is_behind side last id }
{
    match last {
        Some(last) => precedes(side, last, id),
        None => true,
    }
}

/// The id comes before the first order, where there is one.
fn is_ahead(side: Side, id: u128, first: &Option<Order>) -> bool
    ensures { result ≡ own.is_ahead side id first.now }
{
    match first {
        Some(first) => precedes(side, id, first.id),
        None => true,
    }
}

/// The order of an id, where it rests after the last id and before the first order; else the first order. It looks up
/// no other.
fn earlier<S: SideRead>(
    side: Side,
    last: Option<u128>,
    book: &S,
    first: Option<Order>,
    id: u128,
) -> Option<Order>
    requires { S.holds book.now }
    ensures { result ≡ own.earlier side last (S.orders book.now) first id }
{
    if is_behind(side, last, id) && is_ahead(side, id, &first) {
        book.find(id).or(first)
    } else {
        first
    }
}

/// The account's first order on a side, where all that it has there come after a last id.
pub fn first_own<S: SideRead>(
    owner: Owner<'_>,
    side: Side,
    last: Option<u128>,
    book: &S,
) -> Option<Order>
    requires open { IsOpen owner.orders.bytes.now }
    requires holds { S.holds book.now }
    requires names { DoSlotsNameOn owner.account (slots_in owner.orders) side (S.orders book.now) }
    requires behind { All (StandsBehind owner.account side last) (S.orders book.now) }
    ensures { IsFirstOwn owner.entry.account side result (S.orders book.now) }
{
    let bits = side_bits(&owner.orders, side);
    let mut first = None;
    let mut slot = next_set(bits, 0);
    'slots: while slot < 128 {
        first = earlier(side, last, book, first, id_at(&owner.orders, slot));
        slot = next_set(bits, slot + 1);
    }
    first
}
