//! What accounts are of which an audit finds nothing. A law is a function without a body, and its clause is the law.

ghost use Rattle.std.specs.Prelude.{◌≡◌, ◌↔◌, List, []};
ghost use Rattle.std.specs.List.{All};
ghost use Rattle.dex_types.specs.Accounts.{PlainAccounts, PlainMarketAccounts};
ghost use Rattle.dex_types.specs.Soundness.{AreDistinct};
ghost use Rattle.dex_orders.specs.StandsFor.{traders_of};
ghost use Rattle.dex_accounts.specs.Accepted.{IsAccepted};
ghost use Rattle.dex_accounts.specs.Decoded.{AreSound};
ghost use Rattle.dex_state.specs.Accepted.{AreAccepted};
ghost use Rattle.dex_types.specs.declared.limits.Limits.{Limits};
ghost use Rattle.dex_state.specs.Held.{HoldBytes, IsHeldMarket};
ghost use Rattle.dex_state.specs.Conserved.{IsConserved};
ghost use Rattle.dex_audit.specs.Findings.{findings, market_findings};
ghost use Rattle.dex_audit.specs.Supplies.{supplies_off};

/// Accounts without findings are, market by market, those of a sound market.
pub fn accounts_without_findings_are_of_sound_markets()
    ensures { (limits : Limits) (accounts : PlainAccounts) → AreAccepted limits accounts → HoldBytes accounts
        → findings accounts ≡ [] → All AreSound accounts.markets }
{}

/// Of accounts without findings each mint is conserved.
pub fn mints_without_findings_are_conserved()
    ensures { (limits : Limits) (accounts : PlainAccounts) → AreAccepted limits accounts → HoldBytes accounts
        → findings accounts ≡ [] → All (IsConserved accounts) accounts.mints }
{}

/// Of accepted accounts an audit finds nothing exactly where they are, market by market, those of a sound market, for
/// which they stand, and each mint is conserved.
pub fn an_audit_finds_nothing_exactly_where_markets_are_sound_and_mints_conserved()
    ensures { (limits : Limits) (accounts : PlainAccounts) → AreAccepted limits accounts → HoldBytes accounts
        → (findings accounts ≡ [])
        ↔ (All AreSound accounts.markets × All (IsConserved accounts) accounts.mints) }
{}

/// Of markets alone, whatever mints and wallets there are: accepted accounts of bytes, of which no market has an
/// address twice among its open-orders accounts, have no finding exactly where each market's are those of a sound
/// market. An audit of all accounts finds the same of markets, where each mint is conserved.
pub fn markets_without_findings_are_sound()
    ensures exactly { (markets : List PlainMarketAccounts) → All IsAccepted markets
        → All (λ (m : PlainMarketAccounts). AreDistinct (traders_of m.orders)) markets → All IsHeldMarket markets
        → (market_findings markets ≡ []) ↔ All AreSound markets }
    ensures audit { (accounts : PlainAccounts) → supplies_off accounts ≡ []
        → findings accounts ≡ market_findings accounts.markets }
{}
