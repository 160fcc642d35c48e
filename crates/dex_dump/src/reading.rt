//! What the rows of a dump have declared, and what one more row adds.

ghost use Rattle.std.specs.Prelude.{◌≡◌, ◌<◌, [], ◌++◌, ◌&&◌, IfSome, OnOk, length, map, nat_lt};
ghost use Rattle.std.specs.List.{list_any};
ghost use Rattle.dex_types.specs.Accounts.{accounts_of, market_accounts_of, named_of, orders_account_of};
ghost use Rattle.dex_types.specs.Addresses as addresses;
ghost use Rattle.dex_market.specs.MarketAccount.{market_terms};
ghost use Rattle.dex_state.specs.Addresses as state;
ghost use Rattle.dex_dump.specs.Reading as spec;
ghost use Rattle.dex_dump_rows.specs.Lines.PlainLine.{Market, Mint, Orders, Wallet};
ghost use Rattle.dex_dump.specs.Telling.{TakesLine, plain_reading};
ghost use Rattle.dex_dump_rows.specs.Telling.{plain_line};
ghost use Rattle.dex_dump.specs.declared.reading.Stop.TheVariants as stop;

use crate::checks::{
    Failed, address_in, by_rules, check_parts, market_rule, orders_rule, wallet_rule,
};
use crate::taken::TakenAddresses;
use dex_dump_rows::Line;
use dex_fields::market;
use dex_token::check_mint;
use dex_types::{
    Accounts, Address, Limits, MarketAccounts, Named, NoMemory, OrdersAccount, is_same,
};
use std::alloc::{AllocFailed, Global};

/// The accounts that rows have declared, every address that is taken: those of these accounts, and those of each
/// market's vaults, queues and sides; and how much is read.
#[derive(Drop)]
pub struct Reading {
    pub(crate) accounts: Accounts,
    pub(crate) taken: TakenAddresses,
    pub(crate) limits: Limits,
}

/// Why a row was not added.
#[derive(Clone, Copy, Debug, PartialEq, Eq)]
pub enum Stop {
    /// A check of one of its accounts fails.
    Failed(Failed),
    /// Memory was wanting.
    NoMemory,
}

impl From<Failed> for Stop {
    ghost from_gives = { λ failed e. e ≡ stop.Failed failed };

    fn from(failed: Failed) -> Stop {
        Stop::Failed(failed)
    }
}

impl<T: Drop> From<AllocFailed<T>> for Stop {
    ghost from_gives = { λ _ e. e ≡ stop.NoMemory };

    fn from(_error: AllocFailed<T>) -> Stop {
        Stop::NoMemory
    }
}

impl From<NoMemory> for Stop {
    ghost from_gives = { λ _ e. e ≡ stop.NoMemory };

    fn from(_error: NoMemory) -> Stop {
        Stop::NoMemory
    }
}

/// Whether a mint has this address.
#[tactic(auto, using(crate::proofs::ReadingLaws::list_any_map))]
pub fn is_mint(accounts: &Accounts, address: Address) -> bool
    ensures { result ≡ state.is_mint (accounts_of accounts.now) address }
{
    is_named(&accounts.mints, address)
}

fn is_named(accounts: &[Named], address: Address) -> bool
    ensures { result ≡ list_any (λ account. addresses.is_same address account.address) accounts.now }
{
    accounts
        .iter()
        .any(|account| is_same(address, account.address))
}

impl Reading {
    /// Before the first account.
    pub fn new(alloc: Global, limits: Limits) -> Reading
        ensures { plain_reading result ≡ spec.start limits }
    {
        Reading {
            accounts: Accounts {
                mints: Vec::new(alloc),
                srm: None,
                msrm: None,
                wallets: Vec::new(alloc),
                markets: Vec::new(alloc),
            },
            taken: TakenAddresses::new(alloc),
            limits,
        }
    }

    /// Whether a row may state this after what was read: it declares no address twice, names what earlier rows declare,
    /// and passes no limit.
    pub fn is_allowed(&self, line: &Line) -> bool
        ensures { result ≡ spec.is_allowed (plain_reading self.now) (plain_line line.now) }
    {
        let accounts = &self.accounts;
        let limits = &self.limits;
        match line {
            Line::Mint(mint) => self.is_new(mint.address, accounts.mints.len(), limits.mints),
            Line::Srm(mint) => is_name(accounts, *mint, accounts.srm, accounts.msrm),
            Line::Msrm(mint) => is_name(accounts, *mint, accounts.msrm, accounts.srm),
            Line::Wallet(wallet) => {
                self.is_new(wallet.address, accounts.wallets.len(), limits.wallets)
            }
            Line::Market(market) => {
                self.is_new(market.address, accounts.markets.len(), limits.markets)
            }
            Line::Orders(market, account) => {
                !self.taken.has(account.address)
                    && has_room(limits.orders, *market, &accounts.markets)
            }
            Line::End => true,
        }
    }

    fn is_new(&self, address: Address, count: usize, limit: usize) -> bool
        ensures { result ≡ spec.is_new (plain_reading self.now) address count limit }
    {
        !self.taken.has(address) && count < limit
    }

    /// Checks the accounts that a row states, and adds what it states.
    #[tactic(auto, unfolding(crate::specs::Checks::checks))]
    pub fn take(&mut self, line: Line) -> Result<(), Stop>
        ensures { TakesLine result (plain_reading self.old) (plain_reading self.new) (plain_line line) }
    {
        match line {
            Line::Mint(mint) => self.take_mint(mint),
            Line::Srm(mint) => {
                self.accounts.srm = Some(mint);
                Ok(())
            }
            Line::Msrm(mint) => {
                self.accounts.msrm = Some(mint);
                Ok(())
            }
            Line::Wallet(wallet) => self.take_wallet(wallet),
            Line::Market(market) => self.take_market(market),
            Line::Orders(market, account) => self.take_orders(market, account),
            Line::End => Ok(()),
        }
    }

    #[tactic(auto, unfolding(crate::specs::Checks::checks))]
    fn take_mint(&mut self, mint: Named) -> Result<(), Stop>
        ensures { TakesLine result (plain_reading self.old) (plain_reading self.new) (Mint (named_of mint)) }
    {
        by_rules(mint.address, check_mint(&mint.bytes).err())?;
        self.taken.push(mint.address)?;
        self.accounts.mints.push(mint)?;
        Ok(())
    }

    #[tactic(auto, unfolding(crate::specs::Checks::checks))]
    fn take_wallet(&mut self, wallet: Named) -> Result<(), Stop>
        ensures { TakesLine result (plain_reading self.old) (plain_reading self.new) (Wallet (named_of wallet)) }
    {
        by_rules(wallet.address, wallet_rule(&self.accounts, &wallet.bytes))?;
        self.taken.push(wallet.address)?;
        self.accounts.wallets.push(wallet)?;
        Ok(())
    }

    #[tactic(auto, unfolding(crate::specs::Checks::checks))]
    fn take_market(&mut self, market: MarketAccounts) -> Result<(), Stop>
        ensures { TakesLine result (plain_reading self.old) (plain_reading self.new)
            (Market (market_accounts_of market)) }
    {
        let fault = market_rule(self, market.address, &market.market);
        by_rules(market.address, fault)?;
        check_parts(&market)?;
        self.taken.push(market.address)?;
        take_parts(&mut self.taken, &market.market)?;
        self.accounts.markets.push(market)?;
        Ok(())
    }

    #[tactic(auto, unfolding(crate::specs::Checks::checks))]
    fn take_orders(&mut self, market: Address, account: OrdersAccount) -> Result<(), Stop>
        ensures { TakesLine result (plain_reading self.old) (plain_reading self.new)
            (Orders market (orders_account_of account)) }
    {
        by_rules(account.address, orders_rule(market, &account.bytes))?;
        self.taken.push(account.address)?;
        add_orders(&mut self.accounts.markets, market, account)?;
        Ok(())
    }
}

/// Whether a row may give a name to a mint: the mint is declared and has not the other name, and no mint has this one.
fn is_name(
    accounts: &Accounts,
    mint: Address,
    named: Option<Address>,
    other: Option<Address>,
) -> bool
    ensures { result ≡ spec.is_name (accounts_of accounts.now) mint named other }
{
    match (named, other) {
        (Some(_), _) => false,
        (None, None) => is_mint(accounts, mint),
        (None, Some(other)) => is_mint(accounts, mint) && !is_same(mint, other),
    }
}

/// Whether the first market of an address has room for one more open-orders account, of so many that it may have.
fn has_room(most: usize, address: Address, markets: &[MarketAccounts]) -> bool
    ensures { result ≡ spec.has_room most address (map market_accounts_of markets.now) }
{
    for market in markets {
        if is_same(address, market.address) {
            return market.orders.len() < most;
        }
    }
    false
}

/// Adds an open-orders account to the first market of an address.
fn add_orders(
    markets: &mut [MarketAccounts],
    address: Address,
    account: OrdersAccount,
) -> Result<(), AllocFailed<OrdersAccount>>
    ensures { OnOk result (map market_accounts_of markets.new
        ≡ spec.with_orders address (orders_account_of account) (map market_accounts_of markets.old)) }
{
    for place in 0..markets.len() {
        if is_same(address, markets[place].address) {
            let market = &mut markets[place];
            market.orders.push(account)?;
            return Ok(());
        }
    }
    Ok(())
}

/// The addresses of a market's vaults, queues and sides are taken.
fn take_parts(taken: &mut TakenAddresses, bytes: &[u8]) -> Result<(), NoMemory>
    requires { length bytes.now ≡ 388 }
    ensures { OnOk result (taken.new ≡ taken.old ++ state.parts_of (market_terms bytes.now)) }
{
    taken.push(address_in(bytes, market::COIN_VAULT))?;
    taken.push(address_in(bytes, market::PC_VAULT))?;
    taken.push(address_in(bytes, market::REQ_Q))?;
    taken.push(address_in(bytes, market::EVENT_Q))?;
    taken.push(address_in(bytes, market::BIDS))?;
    taken.push(address_in(bytes, market::ASKS))?;
    Ok(())
}
