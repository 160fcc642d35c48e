//! A market with which a script starts, whose accounts may be still to be made.

ghost use Rattle.std.specs.Prelude.{◌≡◌, [], ◌∷◌, ◌++◌, IfOk, OnOk, Some, length, map};
ghost use Rattle.dex_make.specs.MarketBytes.{made_accounts};
ghost use Rattle.dex_make.specs.MarketSet.{IsMarketSet};
ghost use Rattle.dex_types.specs.Accounts.{market_accounts_of, orders_account_of};
ghost use Rattle.dex_script.specs.Markets.{market_of, no_accounts_of};
ghost use Rattle.dex_script.specs.Pieces.{bare_market};

use dex_make::{MarketRoom, MarketSet, make_market_in};
use dex_types::{Address, MarketAccounts, NoMemory, OrdersAccount};
use std::alloc::Global;
use std::marker::Model;

/// A market with which a script starts. A contract sees it as its accounts. Those of a dump are there. Of a market that
/// a row declares only the open-orders accounts are there at first, and room for large ones: all others are made when
/// the first instruction row is read.
#[derive(Drop)]
pub struct DeclaredMarket {
    pub(crate) accounts: MarketAccounts,
    /// What the accounts that are not there are made of.
    pub(crate) set: Option<MarketSet>,
}

impl Model for DeclaredMarket {
    ghost use Rattle.std.specs.Prelude.{IfSome};
    ghost use Rattle.dex_make.specs.MarketSet.{IsMarketSet};
    ghost use Rattle.dex_types.specs.Accounts.{PlainMarketAccounts, market_accounts_of};
    ghost use Rattle.dex_script.specs.Markets.{market_of};

    ghost Value = { PlainMarketAccounts };

    ghost view = { λ s. market_of s.set (market_accounts_of s.accounts) };

    ghost invariant = { λ s. IfSome s.set IsMarketSet };
}

impl DeclaredMarket {
    /// The market of these accounts.
    pub(crate) fn of(accounts: MarketAccounts) -> DeclaredMarket
        ensures { result ≡ market_accounts_of accounts }
    {
        DeclaredMarket {
            accounts,
            set: None,
        }
    }

    /// The market that is to be made of this. Room for its large accounts is taken.
    pub(crate) fn of_set(alloc: Global, set: MarketSet) -> Result<DeclaredMarket, NoMemory>
        requires { IsMarketSet set }
        ensures { IfOk result (λ market. market ≡ made_accounts set) }
    {
        let MarketRoom { events, bids, asks } = MarketRoom::new(alloc, &set)?;
        let mut accounts = no_accounts(alloc, set.address, set.authority);
        accounts.events = events;
        accounts.bids = bids;
        accounts.asks = asks;
        Ok(DeclaredMarket {
            accounts,
            set: Some(set),
        })
    }

    /// Its address and who signs for it, without accounts.
    pub(crate) fn bare(&self, alloc: Global) -> DeclaredMarket
        ensures { result ≡ bare_market self.now }
    {
        DeclaredMarket::of(no_accounts(alloc, self.accounts.address, self.accounts.authority))
    }

    /// Its address.
    pub(crate) fn address(&self) -> Address
        ensures { result ≡ self.now.address }
    {
        self.accounts.address
    }

    /// How many open-orders accounts it has.
    pub(crate) fn count_orders(&self) -> usize
        ensures { result ≡ length self.now.orders }
    {
        self.accounts.orders.len()
    }

    /// One more open-orders account.
    pub(crate) fn add_orders(&mut self, account: OrdersAccount) -> Result<(), NoMemory>
        ensures { OnOk result (self.new
            ≡ record self.old { orders = self.old.orders ++ orders_account_of account ∷ [] }) }
    {
        add_account(&mut self.accounts.orders, account)
    }

    /// How many bytes of its accounts are still to be made, about.
    pub fn bytes_to_make(&self) -> usize {
        match self.set {
            Some(set) => {
                let nodes = (set.bid_nodes as usize).saturating_add(set.ask_nodes as usize);
                nodes.saturating_add(set.events as usize).saturating_mul(80)
            }
            None => 0,
        }
    }

    /// Its accounts, which are made if they are not there.
    pub(crate) fn into_accounts(self, alloc: Global) -> Result<MarketAccounts, NoMemory>
        ensures { IfOk result (λ made. market_accounts_of made ≡ self) }
    {
        match self.set {
            Some(set) => made_with(alloc, &set, self.accounts),
            None => Ok(self.accounts),
        }
    }

    /// The market with its accounts made.
    pub fn made(self, alloc: Global) -> Result<DeclaredMarket, NoMemory>
        ensures { IfOk result (λ made. made ≡ self) }
    {
        let accounts = self.into_accounts(alloc)?;
        Ok(DeclaredMarket::of(accounts))
    }
}

// The accounts that are made of this where these stand, but for their open-orders accounts, which stay.
fn made_with(
    alloc: Global,
    set: &MarketSet,
    accounts: MarketAccounts,
) -> Result<MarketAccounts, NoMemory>
    requires { IsMarketSet set.now }
    ensures { IfOk result (λ made. market_accounts_of made
        ≡ market_of (Some set.now) (market_accounts_of accounts)) }
{
    let room = MarketRoom {
        events: accounts.events,
        bids: accounts.bids,
        asks: accounts.asks,
    };
    let mut made = make_market_in(alloc, set, room)?;
    made.address = accounts.address;
    made.authority = accounts.authority;
    made.orders = accounts.orders;
    Ok(made)
}

// A market of this address without accounts.
fn no_accounts(alloc: Global, address: Address, authority: Address) -> MarketAccounts
    ensures { market_accounts_of result ≡ no_accounts_of address authority }
{
    MarketAccounts {
        address,
        authority,
        market: Vec::new(alloc),
        coin_vault: Vec::new(alloc),
        pc_vault: Vec::new(alloc),
        requests: Vec::new(alloc),
        events: Vec::new(alloc),
        bids: Vec::new(alloc),
        asks: Vec::new(alloc),
        orders: Vec::new(alloc),
    }
}

fn add_account(orders: &mut Vec<OrdersAccount>, account: OrdersAccount) -> Result<(), NoMemory>
    ensures { OnOk result (map orders_account_of orders.new.items
        ≡ map orders_account_of orders.old.items ++ (orders_account_of account ∷ [])) }
{
    match orders.push(account) {
        Ok(()) => Ok(()),
        Err(_) => Err(NoMemory),
    }
}
