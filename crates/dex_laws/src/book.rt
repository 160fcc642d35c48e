//! Laws of the book as a whole.

ghost use Rattle.std.specs.Prelude.{◌<◌, ◌^◌};
ghost use Rattle.dex_types.specs.declared.terms.Side.{Side};
ghost use Rattle.dex_types.specs.Market.{Market};
ghost use Rattle.dex_types.specs.NewOrder.{NewOrder, order_on, after_order};
ghost use Rattle.dex_types.specs.Trader.{Account};
ghost use Rattle.dex_laws.specs.Book.{IsBookInOrder};

/// After a new order both sides are in book order still, with sequence numbers below the next, and every bid's price is
/// still below every ask's.
pub fn a_book_in_order_stays_in_order()
    ensures { (side : Side) (m : Market) (account : Account) (n : NewOrder) →
        m.next_sequence < 2 ^ 64 → IsBookInOrder m →
        IsBookInOrder (after_order side account n (order_on side m account n) m) }
{}
