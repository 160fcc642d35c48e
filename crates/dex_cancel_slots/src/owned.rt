//! What finding an account's orders reads.

ghost use Rattle.std.specs.Prelude.{◌≡◌};
ghost use Rattle.dex_orders.specs.OrdersAccount.{IsOpen};
ghost use Rattle.dex_cancel_slots.specs.Given.{IsNamed, slots_in};
ghost use Rattle.dex_cancel_slots.specs.Slots.{DoSlotsName};

use dex_orders::OrdersRef;
use dex_types::{Address, SideRead};

/// An open-orders account whose orders are to be found: its address and its bytes.
#[derive(Clone, Copy)]
pub struct Owner<'o> {
    pub account: Address,
    pub orders: OrdersRef<'o>,
}

/// What finding an account's orders reads: the account's address and its slots, and the two sides of the book.
#[derive(Clone, Copy)]
pub struct Owned<'o, 'b, 'a, B, A> {
    pub account: Address,
    pub orders: OrdersRef<'o>,
    pub bids: &'b B,
    pub asks: &'a A,
}

/// What is lent, as one value, where the slots name the account's orders.
pub fn gathered<'o, 'b, 'a, B: SideRead, A: SideRead>(
    owner: Owner<'o>,
    bids: &'b B,
    asks: &'a A,
) -> Owned<'o, 'b, 'a, B, A>
    requires open { IsOpen owner.orders.bytes.now }
    requires bids { B.holds bids.now }
    requires asks { A.holds asks.now }
    requires names { DoSlotsName owner.account (slots_in owner.orders) (B.orders bids.now) (A.orders asks.now) }
    ensures named { IsNamed B.holds B.orders A.holds A.orders result }
    ensures account { result.account ≡ owner.entry.account }
    ensures orders { result.orders.bytes.now ≡ owner.entry.orders.bytes.now }
    ensures bids { result.bids.now ≡ bids.entry.now }
    ensures asks { result.asks.now ≡ asks.entry.now }
{
    Owned {
        account: owner.account,
        orders: owner.orders,
        bids,
        asks,
    }
}
