//! Laws of order ids.

ghost use Rattle.std.specs.Prelude.{◌≡◌, ℕ, ◌^◌, ◌<◌, ◌↔◌, ◌≢◌, IsTrue, true, false};
ghost use Rattle.dex_types.specs.declared.terms.Side.{Side};
ghost use Rattle.dex_types.specs.Side.{price_of, sequence_of, id_of, precedes};
ghost use Rattle.dex_laws.specs.BookOrder.{ComesBefore};

/// An id tells the price and the sequence number that it was made of, and no two pairs of them make one id.
pub fn ids_tell_their_parts()
    ensures price { (side : Side) (price sequence : ℕ) → sequence < 2 ^ 64 →
        price_of (id_of side price sequence) ≡ price }
    ensures sequence { (side : Side) (price sequence : ℕ) → sequence < 2 ^ 64 →
        sequence_of side (id_of side price sequence) ≡ sequence }
    ensures parts { (side : Side) (id : ℕ) → id_of side (price_of id) (sequence_of side id) ≡ id }
{}

/// Of two orders of a side the one stands before whose price is better, and at equal prices the older one.
pub fn better_prices_then_older_orders_stand_before()
    ensures { (side : Side) (id other : ℕ) → IsTrue (precedes side id other) ↔ ComesBefore side id other }
{}

/// The book's order of ids is strict and total.
pub fn the_order_is_strict_and_total()
    ensures irreflexive { (side : Side) (id : ℕ) → precedes side id id ≡ false }
    ensures transitive { (side : Side) (first next last : ℕ) →
        precedes side first next ≡ true → precedes side next last ≡ true →
        precedes side first last ≡ true }
    ensures total { (side : Side) (id other : ℕ) → precedes side id other ≡ false → id ≢ other →
        precedes side other id ≡ true }
{}
