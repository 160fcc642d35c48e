//! Laws of what writes leave of an open account. A law is a function without a body, and its clauses are the law.

ghost use Rattle.std.specs.Prelude.{◌≡◌, ℕ, ◌<◌, ◌^◌, List, Some, None, slice_set};
ghost use Rattle.dex_types.specs.declared.terms.Side.{Side};
ghost use Rattle.dex_orders.specs.declared.amounts.Funds.{Funds};
ghost use Rattle.dex_orders.specs.OrdersAccount.{FundsFit, HasNoOrder, IsOpen, account_of, added, funded, market_of, removed, with_funds};

/// Other funds in order that fit their words are the account's, and nothing else of it changes.
pub fn an_account_that_is_funded_has_the_funds()
    ensures words { (bytes : List ℕ) (funds : Funds) → IsOpen bytes → FundsFit funds
        → account_of (funded bytes funds) ≡ with_funds funds (account_of bytes) }
    ensures market { (bytes : List ℕ) (funds : Funds) → IsOpen bytes → FundsFit funds
        → market_of (funded bytes funds) ≡ market_of bytes }
    ensures accepted { (bytes : List ℕ) (funds : Funds) → IsOpen bytes → FundsFit funds
        → IsOpen (funded bytes funds) }
{}

/// A slot that is freed holds no order, and nothing else of the account changes.
pub fn an_account_that_loses_an_order_has_a_free_slot()
    ensures words { (bytes : List ℕ) (slot : ℕ) → IsOpen bytes → slot < 128
        → account_of (removed bytes slot) ≡ record (account_of bytes) {
          slots = slice_set (account_of bytes).slots slot None;
        } }
    ensures market { (bytes : List ℕ) (slot : ℕ) → IsOpen bytes → slot < 128
        → market_of (removed bytes slot) ≡ market_of bytes }
    ensures accepted { (bytes : List ℕ) (slot : ℕ) → IsOpen bytes → slot < 128 → IsOpen (removed bytes slot) }
{}

/// An order that is added stands in its slot, and nothing else of the account changes.
pub fn an_account_that_gets_an_order_holds_it_in_its_slot()
    ensures words { (bytes : List ℕ) (slot id : ℕ) (side : Side) (client : ℕ) → IsOpen bytes → slot < 128
        → id < 2 ^ 128 → client < 2 ^ 64
        → account_of (added bytes slot id side client) ≡ record (account_of bytes) {
          slots = slice_set (account_of bytes).slots slot (Some (record { id = id; side = side; client = client }));
        } }
    ensures market { (bytes : List ℕ) (slot id : ℕ) (side : Side) (client : ℕ) → IsOpen bytes → slot < 128
        → id < 2 ^ 128 → client < 2 ^ 64
        → market_of (added bytes slot id side client) ≡ market_of bytes }
    ensures accepted { (bytes : List ℕ) (slot id : ℕ) (side : Side) (client : ℕ) → IsOpen bytes → slot < 128
        → id < 2 ^ 128 → client < 2 ^ 64
        → HasNoOrder id side (account_of bytes).slots → IsOpen (added bytes slot id side client) }
{}
