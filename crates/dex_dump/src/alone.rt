//! The checks of one market's accounts, whatever other accounts there are.

ghost use Rattle.std.specs.Prelude.{◌≡◌, IsNone, [], ◌∷◌, length, map};
ghost use Rattle.dex_types.specs.Accounts.{market_accounts_of, orders_account_of};
ghost use Rattle.dex_dump.specs.Checks as spec;
ghost use Rattle.dex_dump.specs.Checks.{market_checks, orders_check};
ghost use Rattle.dex_dump.specs.Telling.{TellsChecks};

use crate::checks::{Failed, address_rule, by_rules, check_parts, lower, orders_rule};
use dex_fields::market;
use dex_market::check_market;
use dex_types::{AccountFault, Address, MarketAccounts, OrdersAccount};

/// The rules of a market account, by itself and by its own address.
#[tactic(auto, unfolding(crate::specs::Checks::own_rule))]
fn own_rule(address: Address, bytes: &[u8]) -> Option<AccountFault>
    ensures rule { result ≡ spec.own_rule address bytes.now }
    ensures size { IsNone result → length bytes.now ≡ 388 }
{
    let itself = check_market(bytes).err();
    if bytes.len() != market::LAYOUT.size {
        return itself;
    }
    lower(itself, address_rule(bytes, market::OWN_ADDRESS, address))
}

/// An open-orders account of a market.
fn check_orders_account(market: Address, account: &OrdersAccount) -> Result<(), Failed>
    ensures { TellsChecks result (orders_check market (orders_account_of account.now) ∷ []) }
{
    by_rules(account.address, orders_rule(market, &account.bytes))
}

/// The open-orders accounts of a market.
fn check_each_orders(market: Address, accounts: &[OrdersAccount]) -> Result<(), Failed>
    ensures { TellsChecks result (map (orders_check market) (map orders_account_of accounts.now)) }
{
    for place in 0..accounts.len() {
        match check_orders_account(market, &accounts[place]) {
            Ok(()) => {}
            Err(failed) => return Err(failed),
        }
    }
    Ok(())
}

/// Whether the accounts of a market are accepted, each as one of its kind, and with the others; else the first that is
/// not, with the lowest of its faults (of a slab any that it has): the market account, its vaults, queues and sides,
/// and then its open-orders accounts, as a dump's rows have them. Mints are not looked at, nor whether two have one
/// address.
pub fn check_accounts(accounts: &MarketAccounts) -> Result<(), Failed>
    ensures { TellsChecks result (market_checks (market_accounts_of accounts.now)) }
{
    by_rules(
        accounts.address,
        own_rule(accounts.address, &accounts.market),
    )?;
    check_parts(accounts)?;
    check_each_orders(accounts.address, &accounts.orders)
}
