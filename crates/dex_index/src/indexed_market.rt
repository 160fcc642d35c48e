//! A market's accounts for reading, with an index of its open-orders accounts.

ghost use Rattle.dex_types.specs.Accounts.{market_accounts_of};
ghost use Rattle.dex_index.specs.Reached.{market_reached};

use crate::index::{AccountIndex, find_bytes};
use dex_lent::ReadMarket;
use dex_types::{Address, MarketAccounts};

/// A market's accounts for reading, with an index of its open-orders accounts. Those are the ones to which it leads:
/// all, where it is the market's own.
#[derive(Drop)]
pub struct IndexedMarket<'a> {
    pub accounts: &'a MarketAccounts,
    pub index: &'a AccountIndex,
}

impl<'a> ReadMarket for IndexedMarket<'a> {
    ghost held = { λ market. market_reached market.index.now (market_accounts_of market.accounts.now) };

    fn authority(&self) -> Address {
        self.accounts.authority
    }

    fn market(&self) -> &[u8] {
        let accounts = self.accounts;
        &accounts.market
    }

    fn requests(&self) -> &[u8] {
        let accounts = self.accounts;
        &accounts.requests
    }

    fn events(&self) -> &[u8] {
        let accounts = self.accounts;
        &accounts.events
    }

    fn bids(&self) -> &[u8] {
        let accounts = self.accounts;
        &accounts.bids
    }

    fn asks(&self) -> &[u8] {
        let accounts = self.accounts;
        &accounts.asks
    }

    fn find_orders(&self, address: Address) -> Option<&[u8]> {
        let accounts = self.accounts;
        find_bytes(self.index, &accounts.orders, address)
    }
}
