//! What each call decides and does by the parts that it is given is what it decides and does on their market.

ghost use Rattle.std.specs.Prelude.{◌≡◌, ◌∷◌, ℕ, List, Some, Bool};
ghost use Rattle.dex_types.specs.declared.addresses.Address.{Address};
ghost use Rattle.dex_types.specs.declared.rows.Seen.{Seen};
ghost use Rattle.dex_types.specs.Market.{Market};
ghost use Rattle.dex_types.specs.Requests.{Party, Request, party_of};
ghost use Rattle.dex_types.specs.Settle.{after_settle, after_sweep, settlement};
ghost use Rattle.dex_types.specs.Soundness.{IsSound};
ghost use Rattle.dex_types.specs.Trader.{Account};
ghost use Rattle.dex_types.specs.Upkeep.{after_close, after_disable, after_init, fresh_account};
ghost use Rattle.dex_types.specs.Why.{of_party, why_close, why_disable, why_init, why_settle, why_sweep};
ghost use Rattle.dex_accounts.specs.Owners.{bytes_at};
ghost use Rattle.dex_accounts.specs.Parts.{AreOf, HasOpen, MarketParts, with_account};
ghost use Rattle.dex_market.specs.MarketAccount.{market_words};
ghost use Rattle.dex_orders.specs.OrdersAccount.{IsClosed, IsOpen, account_of, market_of};
ghost use Rattle.dex_orders.specs.StandsFor.{trader_of};
ghost use Rattle.dex_settle.specs.declared.plan.SettlePlan.{SettlePlan};
ghost use Rattle.dex_settle.specs.PayingOut.{PaysOut, plan_of, settled, settlement_by, swept, with_disabled};
ghost use Rattle.dex_settle.specs.Refusing.{close_reason, disable_reason, init_reason, settle_reason, sweep_reason};
ghost use Rattle.dex_settle.specs.SettleGiven.{settle_given, with_settled};

/// By the parts of a market, an account, the signer and the wallets that are seen, each call is refused for the reason
/// for which the market refuses the row: settling an account, sweeping, disabling, opening the account that the row
/// names first, and closing it, whether it is open or not.
pub fn what_is_refused_is_the_markets()
    ensures settle { (parts : MarketParts) (m : Market) (request : Request) (seen : Seen) (party : Party) →
        AreOf parts m →
        settle_reason (market_words parts.market).terms request.signer seen party.account
        ≡ why_settle request seen m party }
    ensures sweep { (parts : MarketParts) (m : Market) (request : Request) (seen : Seen) → AreOf parts m →
        sweep_reason (market_words parts.market) m.listing.authority request.signer seen ≡ why_sweep request seen m }
    ensures disable { (parts : MarketParts) (m : Market) (request : Request) → AreOf parts m →
        disable_reason (market_words parts.market).account_flags m.listing.authority request.signer
        ≡ why_disable request m }
    ensures init { (parts : MarketParts) (m : Market) (request : Request) (address : Address)
        (others : List Address) (bytes : List ℕ) → AreOf parts m →
        request.named ≡ address ∷ others → bytes_at address parts.accounts ≡ Some bytes →
        init_reason (market_words parts.market).account_flags (trader_of bytes) ≡ why_init request m }
    ensures close { (parts : MarketParts) (m : Market) (request : Request) (address : Address)
        (others : List Address) (bytes : List ℕ) → AreOf parts m →
        request.named ≡ address ∷ others → bytes_at address parts.accounts ≡ Some bytes →
        close_reason request.signer (trader_of bytes) ≡ of_party (why_close request)
        (party_of request.named m.traders) }
{}

/// With what settling left put back, the parts of a sound market are those of the market after it; and what is decided
/// pays out all that is free.
pub fn a_settling_leaves_the_market_after_it()
    ensures out { (has_referrer : Bool) (account : Account) → PaysOut (plan_of
        (settlement has_referrer account)) account }
    ensures after { (plan : SettlePlan) (owner : Address) (bytes : List ℕ) (parts : MarketParts) (m : Market) →
        IsSound m → AreOf parts m →
        HasOpen owner bytes parts → PaysOut plan (account_of bytes) →
        AreOf (with_settled owner (settled plan (settle_given bytes parts)) parts)
        (after_settle owner (account_of bytes) (settlement_by plan) m) }
{}

/// Sweeping and disabling, put back, leave the parts of the market after them.
pub fn an_upkeep_leaves_the_market_after_it()
    ensures sweep { (parts : MarketParts) (m : Market) → AreOf parts m →
        AreOf (record parts { market = swept parts.market }) (after_sweep m) }
    ensures disable { (parts : MarketParts) (m : Market) → AreOf parts m →
        AreOf (record parts { market = with_disabled parts.market }) (after_disable m) }
{}

/// With an account's bytes put back, the parts of a market are those of the market after it was opened for its signer,
/// or closed.
pub fn what_is_opened_or_closed_leaves_the_market_after_it()
    ensures opened { (parts : MarketParts) (m : Market) (owner signer : Address) (old bytes : List ℕ) →
        AreOf parts m → bytes_at owner parts.accounts ≡ Some old →
        IsOpen bytes → market_of bytes ≡ m.listing.address → account_of bytes ≡ fresh_account signer →
        AreOf (with_account owner bytes parts) (after_init owner signer m) }
    ensures closed { (parts : MarketParts) (m : Market) (owner : Address) (old bytes : List ℕ) → AreOf parts m →
        bytes_at owner parts.accounts ≡ Some old →
        IsClosed bytes → AreOf (with_account owner bytes parts) (after_close owner m) }
{}
