//! Posting on a side of the book, whatever holds its orders.

ghost use Rattle.std.specs.Prelude.{◌≡◌, ◌≤◌, ◌↔◌, length, IsSome};
ghost use Rattle.dex_types.specs.BookSide.{CanRest, IsNewId};
ghost use Rattle.dex_types.specs.Posting.{post};

use dex_types::{Order, SideBook};

/// Posts an order on a side of the book. On a full side the last order leaves first, whether or not the new one is
/// better, and is answered; None is answered exactly where there was room.
pub fn post_or_boot<B: SideBook>(book: &mut B, order: Order) -> Option<Order>
    // The order is a new one that may rest, on a side that can hold one.
    requires holds { B.holds book.old }
    requires new { IsNewId order.id (B.orders book.old) }
    requires can_rest { CanRest order }
    requires capacity { 1 ≤ B.room book.old }

    // The orders, and the one that left, are those of the definition's posting.
    ensures orders { B.orders book.new ≡ (post (B.side book.old) (B.room book.old) order (B.orders book.old)).side }
    ensures booted { result ≡ (post (B.side book.old) (B.room book.old) order (B.orders book.old)).booted }
    ensures full { IsSome result ↔ (length (B.orders book.old) ≡ B.room book.old) }

    // Side, room and place stay.
    ensures holds { B.holds book.new }
    ensures side { B.side book.new ≡ B.side book.old }
    ensures room { B.room book.new ≡ B.room book.old }
    ensures place { B.same_place book.old book.new }
{
    if book.count() < book.capacity() {
        book.insert(order);
        return None;
    }
    let last = book.worst()?;
    let booted = book.remove(last.id);
    book.insert(order);
    Some(booted)
}
