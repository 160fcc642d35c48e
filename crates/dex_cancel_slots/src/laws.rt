//! When the slots of an account name its orders, and what they then tell. A law is a function without a body, and its
//! clauses are the law.

ghost use Rattle.std.specs.Prelude.{◌≡◌, ◌∷◌, ℕ, List, Some, length};
ghost use Rattle.std.specs.List.Sorted.{IsPermutation};
ghost use Rattle.dex_types.specs.declared.addresses.Address.{Address};
ghost use Rattle.dex_types.specs.declared.terms.Side.{Side};
ghost use Rattle.dex_types.specs.declared.terms.Side.TheVariants.{Ask, Bid};
ghost use Rattle.dex_types.specs.Cancel.{RestingOrder, all_orders_of, oldest, orders_of};
ghost use Rattle.dex_types.specs.Market.{Market};
ghost use Rattle.dex_types.specs.Side.{by_side};
ghost use Rattle.dex_types.specs.Soundness.{IsSound};
ghost use Rattle.dex_types.specs.Trader.{Account, Open, trader_at};
ghost use Rattle.dex_orders.specs.OrdersAccount.{account_of};
ghost use Rattle.dex_accounts.specs.Parts.{AreSoundParts, HasOpen, MarketParts};
ghost use Rattle.dex_cancel.specs.Counting.{count_of_client};
ghost use Rattle.dex_cancel.specs.TakenOff.{without_all, without_one};
ghost use Rattle.dex_cancel_slots.specs.Slots.{DoSlotsName, WhereNamed, any_holding, has_client, in_book_order, is_on};
ghost use Rattle.dex_cancel_slots.specs.Slots.{oldest_of, orders_in};

/// The slots of an open account of a sound market name its orders, by the market and by its parts; they do so still
/// when orders leave the book.
pub fn an_accounts_slots_name_its_orders()
    ensures sound { (owner : Address) (account : Account) (m : Market) → IsSound m
        → trader_at owner m.traders ≡ Some (Open account) → DoSlotsName owner account.slots m.bids m.asks }
    ensures parts { (owner : Address) (bytes : List ℕ) (whole : MarketParts) → AreSoundParts whole
        → HasOpen owner bytes whole → DoSlotsName owner (account_of bytes).slots whole.bids whole.asks }
    ensures stays { WhereNamed (λ owner slots bids asks. (gone : List RestingOrder) →
        DoSlotsName owner slots (without_all Bid gone bids) (without_all Ask gone asks)) }
{}

/// Slots that name an owner's orders tell exactly its resting orders, each once; how many have a client id, and the
/// oldest of them; and those of a side in book order. Where the owner's first order leaves the book, its others are
/// left, in their order.
pub fn the_slots_tell_an_owners_orders()
    ensures orders { WhereNamed (λ owner slots bids asks.
        IsPermutation (all_orders_of owner bids asks) (orders_in any_holding bids asks slots)) }
    ensures count { WhereNamed (λ owner slots bids asks. (client : ℕ) →
        length (orders_in (has_client client) bids asks slots)
        ≡ count_of_client client (all_orders_of owner bids asks)) }
    ensures oldest { WhereNamed (λ owner slots bids asks. (client : ℕ) →
        oldest_of (orders_in (has_client client) bids asks slots) ≡ oldest client (all_orders_of owner bids asks)) }
    ensures side { WhereNamed (λ owner slots bids asks. (side : Side) →
        in_book_order side (orders_in (is_on side) bids asks slots) ≡ orders_of owner side (by_side side bids asks)) }
    ensures first { WhereNamed (λ owner slots bids asks. (first : RestingOrder) (rest : List RestingOrder) →
        all_orders_of owner bids asks ≡ first ∷ rest
        → all_orders_of owner (without_one Bid first bids) (without_one Ask first asks) ≡ rest) }
{}
