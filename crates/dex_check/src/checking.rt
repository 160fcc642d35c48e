//! The check of a market.

ghost use Rattle.std.specs.Prelude.{◌↔◌, IfOk, IsNone, MatchOption, OnOk, Some};
ghost use Rattle.dex_accounts.specs.Accepted.{IsAccepted};
ghost use Rattle.dex_accounts.specs.Decoded.{AreSound};
ghost use Rattle.dex_check.specs.Flaws.{AreOnce, Tells, TellsFound, accounts_of};
ghost use Rattle.dex_state.specs.Held.{IsHeldMarket};
ghost use Rattle.dex_types.specs.Accounts.{market_accounts_of};

use crate::copying::market_copy;
use crate::flaw::Flaw;
use crate::laws::a_sound_market_has_no_flaw;
use crate::market_slices::MarketSlices;
use crate::twice::find_twice;
use dex_audit::{Finding, audit_markets, markets_without_findings_are_sound};
use dex_dump::{check_accounts, checks_of_a_market_hold_exactly_where_it_is_accepted};
use dex_types::{MarketAccounts, NoMemory};
use std::alloc::Global;

/// The first finding of an audit of a market.
fn first_finding(alloc: Global, market: &MarketAccounts) -> Result<Option<Finding>, NoMemory>
    requires { IsAccepted (market_accounts_of market.now) }
    ensures { IfOk result (λ told. TellsFound told (market_accounts_of market.now)) }
{
    let found = audit_markets(alloc, std::slice::from_ref(market))?;
    Ok(found.first().copied())
}

/// The first account that is not accepted.
fn account_flaw(market: &MarketAccounts) -> Option<Flaw>
    requires { IsHeldMarket (market_accounts_of market.now) }
    ensures { MatchOption result (IsAccepted (market_accounts_of market.now))
        (λ flaw. Tells (Some flaw) (market_accounts_of market.now)) }
{
    checks_of_a_market_hold_exactly_where_it_is_accepted();
    match check_accounts(market) {
        Ok(()) => None,
        Err(failed) => Some(Flaw::Fault(failed.account, failed.fault)),
    }
}

/// An address of two open-orders accounts.
fn twice_flaw(alloc: Global, market: &MarketAccounts) -> Result<Option<Flaw>, NoMemory>
    requires { IsAccepted (market_accounts_of market.now) }
    ensures { IfOk result (λ told. MatchOption told (AreOnce (market_accounts_of market.now).orders)
        (λ flaw. Tells (Some flaw) (market_accounts_of market.now))) }
{
    match find_twice(alloc, &market.orders)? {
        None => Ok(None),
        Some(address) => Ok(Some(Flaw::Twice(address))),
    }
}

/// What an audit finds first.
fn found_flaw(alloc: Global, market: &MarketAccounts) -> Result<Option<Flaw>, NoMemory>
    requires held { IsHeldMarket (market_accounts_of market.now) }
    requires accepted { IsAccepted (market_accounts_of market.now) }
    requires once { AreOnce (market_accounts_of market.now).orders }
    ensures { IfOk result (λ told. Tells told (market_accounts_of market.now)) }
{
    markets_without_findings_are_sound();
    match first_finding(alloc, market)? {
        None => Ok(None),
        Some(finding) => Ok(Some(Flaw::Found(finding))),
    }
}

/// The first flaw of accounts that are in memory.
fn first_flaw(alloc: Global, market: &MarketAccounts) -> Result<Option<Flaw>, NoMemory>
    requires { IsHeldMarket (market_accounts_of market.now) }
    ensures { IfOk result (λ told. Tells told (market_accounts_of market.now)) }
{
    if let Some(flaw) = account_flaw(market) {
        return Ok(Some(flaw));
    }
    if let Some(flaw) = twice_flaw(alloc, market)? {
        return Ok(Some(flaw));
    }
    found_flaw(alloc, market)
}

/// The first flaw of accounts that a caller has.
fn flaw_in(alloc: Global, market: &MarketSlices<'_>) -> Result<Option<Flaw>, NoMemory>
    ensures flaw { IfOk result (λ told. Tells told (accounts_of market.now)) }
    ensures held { OnOk result (IsHeldMarket (accounts_of market.now)) }
{
    let copy = market_copy(alloc, market)?;
    first_flaw(alloc, &copy)
}

/// Whether these are the accounts of a sound market, as `process` wants them: nothing where each is accepted, by itself
/// and with the others, and they stand for a sound market; else their first flaw. Accounts are looked at first, in the
/// order of a dump; then whether two open-orders accounts have one address; then the rules of an audit, but for that of
/// mints. It copies the accounts, and only a lack of memory can come in the place of the answer.
pub fn check(alloc: Global, market: &MarketSlices<'_>) -> Result<Option<Flaw>, NoMemory>
    ensures flaw { IfOk result (λ told. Tells told (accounts_of market.now)) }
    ensures exact { IfOk result (λ told. IsNone told
        ↔ (IsAccepted (accounts_of market.now) × AreSound (accounts_of market.now))) }
{
    a_sound_market_has_no_flaw();
    let told = flaw_in(alloc, market)?;
    Ok(told)
}
