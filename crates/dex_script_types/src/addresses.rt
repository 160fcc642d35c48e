//! The addresses of the markets and wallets with which a script starts.

ghost use Rattle.std.specs.Prelude.{◌≡◌, ◌++◌, ◌∷◌, [], IfOk, OnOk, map};
ghost use Rattle.dex_types.specs.Accounts.{PlainAccount, PlainMarketAccounts, market_accounts_of, named_of};

use dex_types::{Address, MarketAccounts, Named, NoMemory};
use std::alloc::Global;

/// An address more.
pub fn push_address(addresses: &mut Vec<Address>, address: Address) -> Result<(), NoMemory>
    ensures { OnOk result (addresses.new.items ≡ addresses.old.items ++ address ∷ []) }
{
    match addresses.push(address) {
        Ok(()) => Ok(()),
        Err(_) => Err(NoMemory),
    }
}

/// The addresses of markets, in their order. Asks memory.
pub fn addresses_of_markets(
    alloc: Global,
    markets: &[MarketAccounts],
) -> Result<Vec<Address>, NoMemory>
    ensures { IfOk result (λ addresses. addresses.items
        ≡ map (λ (accounts : PlainMarketAccounts). accounts.address) (map market_accounts_of markets.now)) }
{
    let mut addresses = Vec::new(alloc);
    for accounts in markets {
        push_address(&mut addresses, accounts.address)?;
    }
    Ok(addresses)
}

/// The addresses of wallets, or of mints, in their order, after others.
pub fn push_named(addresses: &mut Vec<Address>, accounts: &[Named]) -> Result<(), NoMemory>
    ensures { OnOk result (addresses.new.items
        ≡ addresses.old.items ++ map (λ (account : PlainAccount). account.address) (map named_of accounts.now)) }
{
    for account in accounts {
        push_address(addresses, account.address)?;
    }
    Ok(())
}

/// The addresses of wallets, in their order. Asks memory.
pub fn addresses_of_wallets(alloc: Global, wallets: &[Named]) -> Result<Vec<Address>, NoMemory>
    ensures { IfOk result (λ addresses. addresses.items
        ≡ map (λ (account : PlainAccount). account.address) (map named_of wallets.now)) }
{
    let mut addresses = Vec::new(alloc);
    push_named(&mut addresses, wallets)?;
    Ok(addresses)
}
