//! What a market's last accounts hold for each account.

ghost use Rattle.std.specs.Prelude.{◌≡◌, length, map, IfOk};
ghost use Rattle.dex_types.specs.declared.addresses.Address.{Address as AddressOf};
ghost use Rattle.dex_types.specs.Accounts.{market_accounts_of};
ghost use Rattle.dex_types.specs.QueuedEvent.{decoded_event};
ghost use Rattle.dex_types.specs.Trader.{Open};
ghost use Rattle.dex_accounts.specs.Accepted.{IsAccepted};
ghost use Rattle.dex_accounts.specs.Decoded.{market_in};
ghost use Rattle.dex_audit_rules.specs.Books.{plain_gathered};
ghost use Rattle.dex_market.specs.MarketAccount.{market_words, sizes_of};
ghost use Rattle.dex_orders.specs.OrdersAccount.{IsOpen, IsOrders, account_of};
ghost use Rattle.dex_orders.specs.StandsFor.{trader_of};
ghost use Rattle.dex_totals.specs.Reading.{AreOrders, traders};
ghost use Rattle.dex_worth.specs.declared.amounts.TokenAmounts.{TokenAmounts as AmountsOf};
ghost use Rattle.dex_worth.specs.Amounts as tally;
ghost use Rattle.dex_worth.specs.Holdings as holds;

use crate::amounts::{NONE, TokenAmounts, add, on_side};
use dex_audit_rules::{Gathered, gather};
use dex_crank::{Kind, kind_of};
use dex_market::MarketRef;
use dex_orders::OrdersRef;
use dex_totals::{lock_of, opened};
use dex_types::{
    Address, Event, Lots, MarketAccounts, NoMemory, Order, OrdersAccount, Side, is_same,
};
use std::alloc::Global;

/// What an open account has free.
fn funds_of(view: OrdersRef<'_>) -> TokenAmounts
    requires { IsOpen view.bytes.now }
    ensures { result ≡ tally.capped_amounts (holds.free_amounts (Open (account_of view.entry.bytes.now))) }
{
    let funds = view.funds();
    TokenAmounts {
        coin: u128::from(funds.coin_free),
        pc: u128::from(funds.pc_free),
    }
}

/// What an account has free; one that is not open has nothing.
fn free_funds(bytes: &[u8]) -> TokenAmounts
    requires { IsOrders bytes.now }
    ensures { result ≡ tally.capped_amounts (holds.free_amounts (trader_of bytes.now)) }
{
    match opened(bytes) {
        Some(view) => funds_of(view),
        None => NONE,
    }
}

/// What the account of an address has free, where it is among these.
fn free_of(accounts: &[OrdersAccount], owner: Address) -> TokenAmounts
    requires { AreOrders accounts.now }
    ensures { result ≡ tally.capped_amounts (holds.free_at (traders accounts.now) owner) }
{
    for account in accounts {
        if is_same(owner, account.address) {
            return free_funds(&account.bytes);
        }
    }
    NONE
}

/// What each of these owners has free.
fn all_free(
    alloc: Global,
    accounts: &[OrdersAccount],
    owners: &[Address],
) -> Result<Vec<TokenAmounts>, NoMemory>
    requires { AreOrders accounts.now }
    ensures { IfOk result (λ all. tally.AreSums (holds.free_at (traders accounts.now)) owners.now all.items) }
{
    let mut all = Vec::new(alloc);
    for place in 0..owners.len() {
        all.push(free_of(accounts, owners[place]))?;
    }
    Ok(all)
}

/// Adds what the orders of a side lock, each for its owner.
fn add_locks(
    held: &mut [TokenAmounts],
    owners: &[Address],
    orders: &[Order],
    side: Side,
    sizes: Lots,
)
    requires { length held.old ≡ length owners.now }
    ensures { (before : AddressOf → AmountsOf) → tally.AreSums before owners.now held.old
        → tally.AreSums (λ of. tally.both (before of) (holds.locks_of side sizes orders.now of)) owners.now held.new }
{
    for place in 0..orders.len() {
        let lock = lock_of(side, sizes, &orders[place]);
        add(held, owners, orders[place].owner, on_side(side, lock));
    }
}

/// What a pending event owes its owner.
fn owed_by(event: &Event) -> TokenAmounts
    ensures { result ≡ holds.owed_amounts (decoded_event event.now) }
{
    match kind_of(event.flags) {
        Kind::MakerFill(Side::Bid) => TokenAmounts {
            coin: u128::from(event.released),
            pc: u128::from(event.fee_or_rebate),
        },
        Kind::MakerFill(Side::Ask) => on_side(Side::Bid, u128::from(event.released)),
        Kind::ReleasingOut(side) => on_side(side, u128::from(event.released)),
        Kind::TakerFill(_) => NONE,
        Kind::PlainOut(_) => NONE,
    }
}

/// Adds what pending events owe, each to its owner.
fn add_owed(held: &mut [TokenAmounts], owners: &[Address], events: &[Event])
    requires { length held.old ≡ length owners.now }
    ensures { (before : AddressOf → AmountsOf) → tally.AreSums before owners.now held.old
        → tally.AreSums (λ of. tally.both (before of) (holds.owed_of (map decoded_event events.now) of)) owners.now
        held.new }
{
    for place in 0..events.len() {
        let owed = owed_by(&events[place]);
        add(held, owners, events[place].owner, owed);
    }
}

/// Adds what resting orders lock and what pending events owe.
fn add_gathered(held: &mut [TokenAmounts], owners: &[Address], gathered: &Gathered, sizes: Lots)
    requires { length held.old ≡ length owners.now }
    ensures { (before : AddressOf → AmountsOf) → tally.AreSums before owners.now held.old → tally.AreSums
        (holds.with_gathered before sizes (plain_gathered gathered.now)) owners.now held.new }
{
    add_locks(held, owners, &gathered.bids, Side::Bid, sizes);
    add_locks(held, owners, &gathered.asks, Side::Ask, sizes);
    add_owed(held, owners, &gathered.events);
}

/// The lot sizes of a market.
pub fn sizes_of(market: &MarketAccounts) -> Lots
    requires { IsAccepted (market_accounts_of market.now) }
    ensures { result ≡ sizes_of (market_words (market_accounts_of market.now).market) }
{
    let words = MarketRef {
        bytes: &market.market,
    };
    words.sizes()
}

/// What a market's last accounts hold for each of these owners: what is free, what resting orders lock, and what
/// pending events owe.
pub fn held_of(
    alloc: Global,
    market: &MarketAccounts,
    owners: &[Address],
) -> Result<Vec<TokenAmounts>, NoMemory>
    requires { IsAccepted (market_accounts_of market.now) }
    ensures { IfOk result (λ held. tally.AreSums (holds.held_amounts (market_in (market_accounts_of market.now)))
        owners.now held.items) }
{
    let gathered = gather(alloc, market)?;
    let sizes = sizes_of(market);
    let mut held = all_free(alloc, &market.orders, owners)?;
    add_gathered(&mut held, owners, &gathered, sizes);
    Ok(held)
}
