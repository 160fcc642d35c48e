//! The accounts of a market, with sides and a queue of another size.

ghost use Rattle.std.specs.Prelude.{◌≤◌, ◌<◌, OnOk, drop, length, map};
ghost use Rattle.std.specs.List.{All, AllZip};
ghost use Rattle.dex_accounts.specs.Accepted.{IsAccepted};
ghost use Rattle.dex_migrate.specs.Migrated.{IsMigrated};
ghost use Rattle.dex_migrate.specs.Steps.{IsMigratedAt};
ghost use Rattle.dex_migrate.specs.TooSmall.{Fits};
ghost use Rattle.dex_types.specs.declared.account_bytes.MarketAccounts.{MarketAccounts};
ghost use Rattle.dex_types.specs.Accounts.{market_accounts_of};

use crate::queues::migrate_queue;
use crate::sides::migrate_side;
use dex_types::{MarketAccounts, NoMemory, Side};
use std::alloc::Global;

/// Puts other sides and another queue in the place of a market's own.
fn migrate_market(
    alloc: Global,
    market: &mut MarketAccounts,
    nodes: u32,
    events: u32,
) -> Result<(), NoMemory>
    requires accepted { IsAccepted (market_accounts_of market.old) }
    requires fits { Fits nodes events (market_accounts_of market.old) }
    requires nodes { (1 ≤ nodes) × (nodes ≤ 65536) }
    requires events { (1 ≤ events) × (events ≤ 65535) }
    ensures { OnOk result (IsMigrated nodes events (market_accounts_of market.old) (market_accounts_of market.new)) }
{
    let bids = migrate_side(alloc, Side::Bid, &market.bids, nodes)?;
    let asks = migrate_side(alloc, Side::Ask, &market.asks, nodes)?;
    let queue = migrate_queue(alloc, &market.events, events)?;
    market.bids = bids;
    market.asks = asks;
    market.events = queue;
    Ok(())
}

/// Like `migrate_market`, of the market at this place; all others stay.
fn migrate_at(
    alloc: Global,
    markets: &mut [MarketAccounts],
    place: usize,
    nodes: u32,
    events: u32,
) -> Result<(), NoMemory>
    requires within { place < length markets.old }
    requires accepted { All (λ market. IsAccepted (market_accounts_of market)) (drop place markets.old) }
    requires fits { All (λ market. Fits nodes events (market_accounts_of market)) (drop place markets.old) }
    requires nodes { (1 ≤ nodes) × (nodes ≤ 65536) }
    requires events { (1 ≤ events) × (events ≤ 65535) }
    ensures { OnOk result ((default : MarketAccounts)
        → IsMigratedAt nodes events place default markets.old markets.new) }
{
    migrate_market(alloc, &mut markets[place], nodes, events)
}

/// Like `migrate_at`, of each market.
pub fn migrate_markets(
    alloc: Global,
    markets: &mut [MarketAccounts],
    nodes: u32,
    events: u32,
) -> Result<(), NoMemory>
    requires accepted { All (λ market. IsAccepted (market_accounts_of market)) markets.old }
    requires fits { All (λ market. Fits nodes events (market_accounts_of market)) markets.old }
    requires nodes { (1 ≤ nodes) × (nodes ≤ 65536) }
    requires events { (1 ≤ events) × (events ≤ 65535) }
    ensures { OnOk result (AllZip (IsMigrated nodes events)
        (map market_accounts_of markets.old) (map market_accounts_of markets.new)) }
{
    for place in 0..markets.len() {
        migrate_at(alloc, markets, place, nodes, events)?;
    }
    Ok(())
}
