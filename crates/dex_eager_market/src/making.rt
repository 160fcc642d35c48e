//! The state of a market that pays at once, of a market's accounts.

ghost use Rattle.std.specs.Prelude.{◌≡◌, ◌+◌, ◌^◌, ◌<◌, ◌≤◌, length, map, IfOk};
ghost use Rattle.std.specs.Vec.{vec_capacity};
ghost use Rattle.dex_types.specs.declared.account_bytes.OrdersAccount.{OrdersAccount as OrdersAccountOf};
ghost use Rattle.dex_types.specs.declared.addresses.Address.{Address as AddressOf};
ghost use Rattle.dex_types.specs.Accounts.{market_accounts_of};
ghost use Rattle.dex_accounts.specs.Accepted.{IsAccepted};
ghost use Rattle.dex_accounts.specs.Decoded.{market_in};
ghost use Rattle.dex_eager.specs.Histories.{eager_start};
ghost use Rattle.dex_eager.specs.Slots.{without_slots};
ghost use Rattle.dex_market.specs.MarketAccount.{market_words};
ghost use Rattle.dex_market.specs.RequestQueue.{next_sequence};
ghost use Rattle.dex_slab.specs.Slab.{IsSlab, room_in};
ghost use Rattle.dex_types.specs.Soundness.{IsSound};
ghost use Rattle.dex_worth.specs.declared.amounts.TokenAmounts.{TokenAmounts as AmountsOf};
ghost use Rattle.dex_worth.specs.Amounts.{AreSums};
ghost use Rattle.dex_eager_market.specs.Making as made;
ghost use Rattle.dex_eager_market.specs.States.{IsKept, eager_of};

use crate::accounts::{Account, Change};
use crate::listing::Resting;
use crate::states::{Book, State, Till};
use dex_audit_rules::gather;
use dex_market::{MarketRef, RequestRef};
use dex_slab::SlabRef;
use dex_types::{Address, MarketAccounts, NoMemory, Order, OrdersAccount, Side, SideRead};
use dex_worth::amounts::{NONE, TokenAmounts};
use dex_worth::holdings::{held_of, sizes_of};
use std::alloc::Global;

/// A side with these orders, all in slot 0, and room for this many, all reserved here.
fn book_of(alloc: Global, room: u32, orders: &[Order]) -> Result<Book, NoMemory>
    ensures room { IfOk result (λ book. book.room ≡ room) }
    ensures reserved { IfOk result (λ book. room ≤ vec_capacity book.orders) }
    ensures orders { IfOk result (λ book. book.orders.items ≡ without_slots orders.now) }
{
    let mut all = Vec::with_capacity(alloc, room as usize)?;
    for place in 0..orders.len() {
        let order = Order {
            slot: 0,
            ..orders[place]
        };
        all.push(order)?;
    }
    Ok(Book { room, orders: all })
}

/// The addresses of a market's accounts, in declared order.
fn owners_of(alloc: Global, accounts: &[OrdersAccount]) -> Result<Vec<Address>, NoMemory>
    ensures { IfOk result (λ owners. owners.items
        ≡ map (λ (account : OrdersAccountOf). account.address) accounts.now) }
{
    let mut owners = Vec::new(alloc);
    for place in 0..accounts.len() {
        owners.push(accounts[place].address)?;
    }
    Ok(owners)
}

/// The accounts of these addresses: what is held for each counts as what it gained.
fn accounts_of(
    alloc: Global,
    owners: &[Address],
    held: &[TokenAmounts],
) -> Result<Vec<Account>, NoMemory>
    requires { length held.now ≡ length owners.now }
    ensures { IfOk result (λ accounts. (amounts : AddressOf → AmountsOf) → AreSums amounts owners.now held.now
        → accounts.items ≡ map (made.account_of amounts) owners.now) }
{
    let mut accounts = Vec::new(alloc);
    for place in 0..owners.len() {
        let total = Change {
            gained: held[place],
            paid: NONE,
        };
        let address = owners[place];
        accounts.push(Account { address, total })?;
    }
    Ok(accounts)
}

/// The sequence number that the request queue gives out next.
fn sequence_of(market: &MarketAccounts) -> u64
    requires { IsAccepted (market_accounts_of market.now) }
    ensures { result ≡ next_sequence (market_accounts_of market.now).requests }
{
    let requests = RequestRef {
        bytes: &market.requests,
    };
    requests.next_seq().unwrap_or(u64::MAX)
}

/// What a market holds of quote for itself and for referrers.
fn takings_of(market: &MarketAccounts) -> u128
    requires { IsAccepted (market_accounts_of market.now) }
    ensures value { result ≡ (market_words (market_accounts_of market.now).market).pc_fees_accrued
        + (market_words (market_accounts_of market.now).market).referrer_rebates_accrued }
    ensures small { result < 2 ^ 65 }
{
    let words = MarketRef {
        bytes: &market.market,
    };
    u128::from(words.pc_fees_accrued()) + u128::from(words.referrer_rebates_accrued())
}

/// How many orders a side's account has room for.
fn room_of(bytes: &[u8], side: Side) -> u32
    requires { IsSlab bytes.now }
    ensures { result ≡ room_in bytes.now }
{
    SlabRef { bytes, side }.capacity()
}

/// A list with room for this many resting orders of each side, all reserved here.
fn list_with(alloc: Global, bids: u32, asks: u32) -> Result<Vec<Resting>, NoMemory>
    ensures { IfOk result (λ list. bids + asks ≤ vec_capacity list) }
{
    let list = Vec::with_capacity(alloc, bids as usize + asks as usize)?;
    Ok(list)
}

/// The accounts of a market, each with what the market holds for it.
fn held_accounts(alloc: Global, market: &MarketAccounts) -> Result<Vec<Account>, NoMemory>
    requires { IsAccepted (market_accounts_of market.now) }
    ensures { IfOk result (λ accounts. accounts.items
        ≡ made.held_accounts (market_in (market_accounts_of market.now))) }
{
    let owners = owners_of(alloc, &market.orders)?;
    let held = held_of(alloc, market, &owners)?;
    accounts_of(alloc, &owners, &held)
}

/// The state of a sound market that begins to pay at once.
pub fn state_of(alloc: Global, market: &MarketAccounts) -> Result<State, NoMemory>
    requires accepted { IsAccepted (market_accounts_of market.now) }
    requires sound { IsSound (market_in (market_accounts_of market.now)) }
    ensures is { IfOk result (λ state. eager_of state ≡ eager_start (market_in (market_accounts_of market.now))) }
    ensures kept { IfOk result (IsKept (2 ^ 84)) }
{
    let gathered = gather(alloc, market)?;
    let bid_room = room_of(&market.bids, Side::Bid);
    let ask_room = room_of(&market.asks, Side::Ask);
    let bids = book_of(alloc, bid_room, &gathered.bids)?;
    let asks = book_of(alloc, ask_room, &gathered.asks)?;
    let till = Till {
        next_sequence: sequence_of(market),
        accounts: held_accounts(alloc, market)?,
        takings: takings_of(market),
    };
    let listed = list_with(alloc, bid_room, ask_room)?;
    Ok(State {
        sizes: sizes_of(market),
        bids,
        asks,
        till,
        listed,
    })
}
