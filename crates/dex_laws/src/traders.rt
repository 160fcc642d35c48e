//! Laws of a market's traders, and of their slots.

ghost use Rattle.std.specs.Prelude.{◌≡◌, ℕ, ◌<◌, ◌≤◌, ◌↔◌, ◌≢◌, ◌++◌, IsTrue, List, Option, Some, None, length, map, replicate, slice_index_or};
ghost use Rattle.dex_types.specs.declared.addresses.Address.{Address};
ghost use Rattle.dex_types.specs.Addresses.{is_same};
ghost use Rattle.dex_types.specs.Trader.{Trader, Traders, Holding, trader_at, put_trader, free_slot};

/// Two addresses are the same exactly where they are equal.
pub fn same_addresses_are_equal()
    ensures { (address other : Address) → IsTrue (is_same address other) ↔ (address ≡ other) }
{}

/// A put changes the trader at its address, where there is one, and no other; addresses and their order stay.
pub fn a_put_changes_one_trader()
    ensures here { (address : Address) (old trader : Trader) (traders : Traders) →
        trader_at address traders ≡ Some old
        → trader_at address (put_trader address trader traders) ≡ Some trader }
    ensures elsewhere { (address other : Address) (trader : Trader) (traders : Traders) →
        other ≢ address → trader_at other (put_trader address trader traders) ≡ trader_at other traders }
    ensures addresses { (address : Address) (trader : Trader) (traders : Traders) →
        let addresses = map (λ (e : Address × Trader). e.0) in
        addresses (put_trader address trader traders) ≡ addresses traders }
{}

/// The free slot is the first that holds nothing; there is none exactly where it is the number of slots.
pub fn the_free_slot_is_the_first()
    ensures within { (slots : List (Option Holding)) → free_slot slots ≤ length slots }
    ensures free { (slots : List (Option Holding)) → free_slot slots < length slots →
        slice_index_or slots (free_slot slots) None ≡ None }
    ensures first { (slots : List (Option Holding)) (slot : ℕ) → slot < length slots →
        slice_index_or slots slot None ≡ None → free_slot slots ≤ slot }
{}
