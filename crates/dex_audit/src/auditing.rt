//! The audit of all accounts.

ghost use Rattle.std.specs.Prelude.{◌≡◌, ◌++◌, All, map, OnOk, IfOk};
ghost use Rattle.std.specs.List.{flat_map};
ghost use Rattle.dex_types.specs.Accounts.{accounts_of, market_accounts_of};
ghost use Rattle.dex_accounts.specs.Accepted.{IsAccepted};
ghost use Rattle.dex_audit.specs.Audited.{AreGathered};
ghost use Rattle.dex_state.specs.Accepted.{AreAccepted};
ghost use Rattle.dex_types.specs.declared.limits.TheConstants.{WIDE};
ghost use Rattle.dex_audit.specs.Findings as audits;
ghost use Rattle.dex_audit_rules.specs.RulesOf.{told_by};

use crate::supplies::tell_supplies;
use dex_audit_rules::{Finding, Gathered, Rule, gather, tell_rule};
use dex_types::{Accounts, MarketAccounts, NoMemory, add};
use std::alloc::Global;

/// The orders and events of each market.
fn gather_all(alloc: Global, markets: &[MarketAccounts]) -> Result<Vec<Gathered>, NoMemory>
    requires { All IsAccepted (map market_accounts_of markets.now) }
    ensures { IfOk result (λ all. AreGathered all.items (map market_accounts_of markets.now)) }
{
    let mut all = Vec::new(alloc);
    for at in 0..markets.len() {
        let one = gather(alloc, &markets[at])?;
        add(&mut all, one)?;
    }
    Ok(all)
}

/// Tells what breaks a rule, market by market.
fn tell_markets(
    alloc: Global,
    found: &mut Vec<Finding>,
    markets: &[MarketAccounts],
    gathered: &[Gathered],
    rule: Rule,
) -> Result<(), NoMemory>
    requires accepted { All IsAccepted (map market_accounts_of markets.now) }
    requires gathered { AreGathered gathered.now (map market_accounts_of markets.now) }
    ensures { OnOk result (found.new.items ≡ found.old.items
        ++ flat_map (told_by rule) (map market_accounts_of markets.now)) }
{
    for place in 0..markets.len() {
        tell_rule(alloc, found, &markets[place], &gathered[place], rule)?;
    }
    Ok(())
}

/// Tells what breaks the rules of markets, rule by rule, but for that of single orders.
fn tell_market_rules(
    alloc: Global,
    found: &mut Vec<Finding>,
    markets: &[MarketAccounts],
    gathered: &[Gathered],
) -> Result<(), NoMemory>
    requires accepted { All IsAccepted (map market_accounts_of markets.now) }
    requires gathered { AreGathered gathered.now (map market_accounts_of markets.now) }
    ensures { let all = map market_accounts_of markets.now in
        OnOk result (found.new.items ≡ found.old.items ++ (audits.slot_findings all ++ audits.fund_findings all)) }
{
    tell_markets(alloc, found, markets, gathered, Rule::Homeless)?;
    tell_markets(alloc, found, markets, gathered, Rule::Misheld)?;
    tell_markets(alloc, found, markets, gathered, Rule::Unpaired)?;
    tell_markets(alloc, found, markets, gathered, Rule::Astray)?;
    tell_markets(alloc, found, markets, gathered, Rule::Ungiven)?;
    tell_markets(alloc, found, markets, gathered, Rule::Repeated)?;
    tell_markets(alloc, found, markets, gathered, Rule::Totals)?;
    tell_markets(alloc, found, markets, gathered, Rule::Deposits)?;
    tell_markets(alloc, found, markets, gathered, Rule::Vaults)?;
    tell_markets(alloc, found, markets, gathered, Rule::Rebates)?;
    tell_markets(alloc, found, markets, gathered, Rule::Beyond)
}

/// What an audit finds of accounts: each place where a rule over several accounts fails, by the rule, then by the
/// accounts' order, then by place. Only a lack of memory can come in the place of the findings.
pub fn audit(alloc: Global, accounts: &Accounts) -> Result<Vec<Finding>, NoMemory>
    requires { AreAccepted WIDE (accounts_of accounts.now) }
    ensures { IfOk result (λ found. found.items ≡ audits.findings (accounts_of accounts.now)) }
{
    let markets = &accounts.markets;
    let gathered = gather_all(alloc, markets)?;
    let mut found = Vec::new(alloc);
    tell_market_rules(alloc, &mut found, markets, &gathered)?;
    tell_supplies(&mut found, &accounts.mints, accounts)?;
    tell_markets(alloc, &mut found, markets, &gathered, Rule::TooLarge)?;
    Ok(found)
}

/// What an audit finds of markets, whatever mints and wallets there are: by the rule, but for that of mints, then by
/// the markets' order, then by place. Only a lack of memory can come in the place of the findings.
pub fn audit_markets(alloc: Global, markets: &[MarketAccounts]) -> Result<Vec<Finding>, NoMemory>
    requires { All IsAccepted (map market_accounts_of markets.now) }
    ensures { IfOk result (λ found. found.items ≡ audits.market_findings (map market_accounts_of markets.now)) }
{
    let gathered = gather_all(alloc, markets)?;
    let mut found = Vec::new(alloc);
    tell_market_rules(alloc, &mut found, markets, &gathered)?;
    tell_markets(alloc, &mut found, markets, &gathered, Rule::TooLarge)?;
    Ok(found)
}
