//! What migrating keeps. A law is a function without a body, and its clause is the law.

ghost use Rattle.std.specs.Prelude.{◌≡◌, ◌≤◌, ℕ};
ghost use Rattle.dex_accounts.specs.StandsFor.{StandsFor};
ghost use Rattle.dex_audit.specs.Findings.{findings};
ghost use Rattle.dex_state.specs.Accepted.{AreAccepted};
ghost use Rattle.dex_types.specs.declared.limits.Limits.{Limits};
ghost use Rattle.dex_migrate.specs.Migrated.{AreMigrated, IsMigrated, with_capacities};
ghost use Rattle.dex_migrate.specs.TooSmall.{Fits};
ghost use Rattle.dex_types.specs.Accounts.{PlainAccounts, PlainMarketAccounts};
ghost use Rattle.dex_types.specs.Market.{Market};
ghost use Rattle.dex_types.specs.Soundness.{IsSound};

/// Migrated accounts are accepted within the limits within which the accounts were.
pub fn migrated_accounts_are_accepted()
    ensures { (limits : Limits) (nodes events : ℕ) (old new : PlainAccounts) → AreMigrated nodes events old new
        → AreAccepted limits old → AreAccepted limits new }
{}

/// Migrated accounts have the findings that the accounts had: so none, where they had none.
pub fn migrated_accounts_have_the_same_findings()
    ensures { (nodes events : ℕ) (old new : PlainAccounts) → AreMigrated nodes events old new
        → findings new ≡ findings old }
{}

/// The migrated accounts of a market stand for the same market with other capacities, which is sound where the market
/// was.
pub fn migrated_accounts_stand_for_the_market_with_other_capacities()
    ensures stands { (nodes events : ℕ) (old new : PlainMarketAccounts) (market : Market)
        → IsMigrated nodes events old new → StandsFor old market
        → StandsFor new (with_capacities nodes events market) }
    ensures sound { (nodes events : ℕ) (old : PlainMarketAccounts) (market : Market)
        → 1 ≤ nodes → Fits nodes events old
        → StandsFor old market → IsSound market → IsSound (with_capacities nodes events market) }
{}
