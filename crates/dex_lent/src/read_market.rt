//! A market's accounts for reading, whatever holds them.

ghost use Rattle.std.specs.Prelude.{◌≡◌, MatchOption, None, Some};
ghost use Rattle.dex_types.specs.Accounts.{PlainMarketAccounts, market_accounts_of};
ghost use Rattle.dex_accounts.specs.Owners.{bytes_at};

use crate::lent_market::LentMarket;
use crate::orders::OrdersAccounts;
use dex_accounts::find_bytes;
use dex_types::{Address, MarketAccounts};

/// A market's accounts for reading: what deciding a row looks at.
pub trait ReadMarket {
    /// What the accounts hold.
    ghost held: { Self → PlainMarketAccounts };

    /// The person who signs for the market.
    fn authority(&self) -> Address
        ensures { result ≡ (held self.now).authority };

    /// The market account.
    fn market(&self) -> &[u8]
        ensures { result.now ≡ (held self.now).market };

    /// The request queue.
    fn requests(&self) -> &[u8]
        ensures { result.now ≡ (held self.now).requests };

    /// The event queue.
    fn events(&self) -> &[u8]
        ensures { result.now ≡ (held self.now).events };

    /// The side of bids.
    fn bids(&self) -> &[u8]
        ensures { result.now ≡ (held self.now).bids };

    /// The side of asks.
    fn asks(&self) -> &[u8]
        ensures { result.now ≡ (held self.now).asks };

    /// The bytes of the open-orders account of the address, if it is one of the market's.
    fn find_orders(&self, address: Address) -> Option<&[u8]>
        ensures { MatchOption result (bytes_at address (held self.now).orders ≡ None)
            (λ bytes. bytes_at address (held self.now).orders ≡ Some bytes.now) };
}

impl ReadMarket for MarketAccounts {
    ghost held = { market_accounts_of };

    fn authority(&self) -> Address {
        self.authority
    }

    fn market(&self) -> &[u8] {
        &self.market
    }

    fn requests(&self) -> &[u8] {
        &self.requests
    }

    fn events(&self) -> &[u8] {
        &self.events
    }

    fn bids(&self) -> &[u8] {
        &self.bids
    }

    fn asks(&self) -> &[u8] {
        &self.asks
    }

    fn find_orders(&self, address: Address) -> Option<&[u8]> {
        find_bytes(&self.orders, address)
    }
}

impl<'a, O: OrdersAccounts> ReadMarket for LentMarket<'a, O> {
    ghost use Rattle.dex_lent.specs.Lent.{lent_of};

    ghost held = { lent_of O.held };

    fn authority(&self) -> Address {
        self.authority
    }

    fn market(&self) -> &[u8] {
        self.market
    }

    fn requests(&self) -> &[u8] {
        self.requests
    }

    fn events(&self) -> &[u8] {
        self.events
    }

    fn bids(&self) -> &[u8] {
        self.bids
    }

    fn asks(&self) -> &[u8] {
        self.asks
    }

    fn find_orders(&self, address: Address) -> Option<&[u8]> {
        self.orders.find(address)
    }
}
