//! Whether all of every market fits.

ghost use Rattle.std.specs.Prelude.{◌≡◌, ◌≤◌, None, length, map};
ghost use Rattle.std.specs.List.{All};
ghost use Rattle.dex_accounts.specs.Accepted.{IsAccepted};
ghost use Rattle.dex_migrate.specs.TooSmall as small;
ghost use Rattle.dex_slab.specs.Nodes.{room_of};
ghost use Rattle.dex_types.specs.Accounts.{market_accounts_of};

use crate::faults::{MigrateFault, MigrateWhat};
use dex_ring::RingRef;
use dex_slab::SlabRef;
use dex_types::{Address, MarketAccounts, Side, SideRead};

/// How many orders a side with this many nodes has room for.
fn room_for(nodes: u32) -> u32
    requires { nodes ≤ 65536 }
    ensures { result ≡ room_of nodes }
{
    nodes.div_ceil(2)
}

/// Whether this many are more than fit.
fn more_than(market: Address, what: MigrateWhat, needed: u32, given: u32) -> Option<MigrateFault>
    ensures { result ≡ small.more_than market what needed given }
{
    if given < needed {
        Some(MigrateFault {
            market,
            what,
            needed,
            given,
        })
    } else {
        None
    }
}

/// What of a market would not fit.
fn market_fault(market: &MarketAccounts, nodes: u32, events: u32) -> Option<MigrateFault>
    requires accepted { IsAccepted (market_accounts_of market.now) }
    requires few { nodes ≤ 65536 }
    ensures { result ≡ small.market_fault nodes events (market_accounts_of market.now) }
{
    let bids = SlabRef {
        bytes: &market.bids,
        side: Side::Bid,
    };
    let asks = SlabRef {
        bytes: &market.asks,
        side: Side::Ask,
    };
    let queue = RingRef {
        bytes: &market.events,
    };
    let room = room_for(nodes);
    more_than(market.address, MigrateWhat::Bids, bids.count(), room)
        .or(more_than(market.address, MigrateWhat::Asks, asks.count(), room))
        .or(more_than(market.address, MigrateWhat::Events, queue.len(), events))
}

/// The first market of which something would not fit.
pub fn first_fault(markets: &[MarketAccounts], nodes: u32, events: u32) -> Option<MigrateFault>
    requires accepted { All (λ market. IsAccepted (market_accounts_of market)) markets.now }
    requires few { nodes ≤ 65536 }
    ensures { result ≡ small.first_fault nodes events (map market_accounts_of markets.now) }
{
    'markets: for market in markets {
        if let Some(fault) = market_fault(market, nodes, events) {
            return Some(fault);
        }
    }
    None
}
