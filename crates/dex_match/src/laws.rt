//! What a new order decides over the accounts' bytes is what it decides on their market. The law is a function that
//! does nothing, whose contract says it.

ghost use Rattle.std.specs.Prelude.{◌≡◌, ℕ, List, Some};
ghost use Rattle.dex_accounts.specs.Parts.{AreOf, HasOpen, MarketParts};
ghost use Rattle.dex_match.specs.Applying.{ordering_over};
ghost use Rattle.dex_match.specs.declared.order_terms.Taker.{Taker};
ghost use Rattle.dex_match.specs.LentParts.{IsDone, with_ordered};
ghost use Rattle.dex_match.specs.OrderTerms.{order_of};
ghost use Rattle.dex_match.specs.OrderParts.{OrderGiven, order_given, parts_of};
ghost use Rattle.dex_match.specs.Ordering.{order_reason};
ghost use Rattle.dex_orders.specs.OrdersAccount.{account_of};
ghost use Rattle.dex_types.specs.declared.rows.Seen.{Seen};
ghost use Rattle.dex_types.specs.declared.rows.WalletSeen.{WalletSeen};
ghost use Rattle.dex_types.specs.declared.terms.Side.{Side};
ghost use Rattle.dex_types.specs.Market.{Market};
ghost use Rattle.dex_types.specs.NewOrder.{NewOrder, after_order, order_on};
ghost use Rattle.dex_types.specs.Soundness.{IsSound};
ghost use Rattle.dex_types.specs.Why.{order_reading, payer, why_ordering};

/// What a new order of an open account decides over parts of a market is what it decides on that market. And why it is
/// refused over parts of a sound market is why the market refuses it, apart from the reasons that ask for the row's
/// accounts and signer alone.
pub fn what_is_decided_is_the_markets()
    ensures ordering { (side : Side) (n : NewOrder) (parts : MarketParts) (m : Market) (bytes : List ℕ)
        → AreOf parts m → HasOpen n.owner bytes parts →
        ordering_over side n (order_given side bytes parts) ≡ order_on side m (account_of bytes) n }
    ensures reason { (side : Side) (n : NewOrder) (parts : MarketParts) (m : Market) (bytes : List ℕ) (seen : Seen)
        (wallet : WalletSeen) →
        IsSound m → AreOf parts m → HasOpen n.owner bytes parts → payer side seen ≡ Some wallet →
        order_reason side n (parts_of (order_given side bytes parts)) wallet.balance
        ≡ why_ordering side n (order_reading side n seen m (account_of bytes)) }
{}

/// What a new order makes of parts of a sound market is of the market after the order.
pub fn an_order_leaves_the_market_after_it()
    ensures { (taker : Taker) (parts : MarketParts) (m : Market) (bytes : List ℕ) (after : OrderGiven) → IsSound m
        → AreOf parts m →
        HasOpen taker.account bytes parts → IsDone taker (order_given taker.id_side bytes parts) after
        → AreOf (with_ordered taker after parts)
        (after_order taker.id_side (account_of bytes) (order_of taker)
        (order_on taker.id_side m (account_of bytes) (order_of taker)) m) }
{}
