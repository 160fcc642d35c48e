//! The addresses that the accounts of a dump take.

ghost use Rattle.std.specs.Prelude.{◌≡◌, ◌++◌, IfOk, OnOk, map};
ghost use Rattle.std.specs.List.{flat_map};
ghost use Rattle.dex_types.specs.Accounts.{accounts_of, market_accounts_of, named_of, orders_account_of};
ghost use Rattle.dex_market.specs.MarketAccount.{IsMarket, market_words};
ghost use Rattle.dex_state.specs.Addresses.{address_of, addresses_of, all_of_market, parts_of};
ghost use Rattle.dex_script.specs.Markets.{AreMarkets};

use dex_dump::TakenAddresses;
use dex_market::MarketRef;
use dex_types::{Accounts, Address, MarketAccounts, Named, NoMemory, OrdersAccount};
use std::alloc::Global;

/// Every address that accounts have: those of mints and wallets, and of each market its own, those of its vaults,
/// queues and sides, and those of its open-orders accounts.
pub(crate) fn taken_addresses(
    alloc: Global,
    accounts: &Accounts,
) -> Result<TakenAddresses, NoMemory>
    requires { AreMarkets (map market_accounts_of accounts.now.markets.items) }
    ensures { IfOk result (λ taken. taken ≡ addresses_of (accounts_of accounts.now)) }
{
    let mut taken = TakenAddresses::new(alloc);
    take_named(&mut taken, &accounts.mints)?;
    take_named(&mut taken, &accounts.wallets)?;
    take_markets(&mut taken, &accounts.markets)?;
    Ok(taken)
}

/// These addresses.
pub(crate) fn take_all(taken: &mut TakenAddresses, new: &[Address]) -> Result<(), NoMemory>
    ensures { OnOk result (taken.new ≡ taken.old ++ new.now) }
{
    'addresses: for address in new {
        taken.push(*address)?;
    }
    Ok(())
}

/// The addresses of mints, or of wallets.
fn take_named(taken: &mut TakenAddresses, accounts: &[Named]) -> Result<(), NoMemory>
    ensures { OnOk result (taken.new ≡ taken.old ++ map address_of (map named_of accounts.now)) }
{
    for account in accounts {
        taken.push(account.address)?;
    }
    Ok(())
}

/// The addresses of open-orders accounts.
fn take_orders(taken: &mut TakenAddresses, orders: &[OrdersAccount]) -> Result<(), NoMemory>
    ensures { OnOk result (taken.new ≡ taken.old ++ map address_of (map orders_account_of orders.now)) }
{
    for account in orders {
        taken.push(account.address)?;
    }
    Ok(())
}

/// The addresses of a market's vaults, queues and sides.
fn take_parts(taken: &mut TakenAddresses, bytes: &[u8]) -> Result<(), NoMemory>
    requires { IsMarket bytes.now }
    ensures { OnOk result (taken.new ≡ taken.old ++ parts_of (market_words bytes.now).terms) }
{
    let market = MarketRef { bytes };
    taken.push(market.coin_vault())?;
    taken.push(market.pc_vault())?;
    taken.push(market.req_q())?;
    taken.push(market.event_q())?;
    taken.push(market.bids())?;
    taken.push(market.asks())
}

/// The addresses of a market.
fn take_market(taken: &mut TakenAddresses, market: &MarketAccounts) -> Result<(), NoMemory>
    requires { IsMarket market.now.market.items }
    ensures { OnOk result (taken.new ≡ taken.old ++ all_of_market (market_accounts_of market.now)) }
{
    taken.push(market.address)?;
    take_parts(taken, &market.market)?;
    take_orders(taken, &market.orders)
}

/// The addresses of markets.
fn take_markets(taken: &mut TakenAddresses, markets: &[MarketAccounts]) -> Result<(), NoMemory>
    requires { AreMarkets (map market_accounts_of markets.now) }
    ensures { OnOk result (taken.new
        ≡ taken.old ++ flat_map all_of_market (map market_accounts_of markets.now)) }
{
    for place in 0..markets.len() {
        take_market(taken, &markets[place])?;
    }
    Ok(())
}
