//! Markets that rows declare.

ghost use Rattle.std.specs.Prelude.{◌≡◌, ◌<◌, OnOk, IfOk, IfSome, false, length, map};
ghost use Rattle.std.specs.List.{position};
ghost use Rattle.dex_types.specs.Accounts.{market_accounts_of, orders_account_of};
ghost use Rattle.dex_types.specs.Addresses.{is_same};
ghost use Rattle.dex_dump.specs.Reading.{with_orders};
ghost use Rattle.dex_instruction.specs.Reading.{decoded};
ghost use Rattle.dex_make.specs.MarketSet.{IsMarketSet};
ghost use Rattle.dex_script.specs.Known.{orders_at};
ghost use Rattle.dex_script.specs.Rows as spec;

use crate::market::DeclaredMarket;
use dex_instruction::decode;
use dex_make::MarketSet;
use dex_statement::{FaultKind, MarketWords, SetupCode};
use dex_types::{Address, Ix, MarketAccounts, NoMemory, OrdersAccount, is_same};
use std::alloc::Global;

/// The place of the first market of an address.
fn place_of_declared(address: Address, markets: &[DeclaredMarket]) -> Option<usize>
    ensures within { IfSome result (λ place. place < length markets.now) }
    ensures place { result ≡ position (λ market. is_same address market.address) markets.now }
{
    markets
        .iter()
        .position(|market| is_same(address, market.address()))
}

/// How many open-orders accounts the first market of an address has.
pub(crate) fn orders_at(address: Address, markets: &[DeclaredMarket]) -> Option<usize>
    ensures { result ≡ orders_at address markets.now }
{
    match place_of_declared(address, markets) {
        Some(place) => Some(markets[place].count_orders()),
        None => None,
    }
}

/// One more open-orders account of the first market of an address.
pub(crate) fn add_orders(
    markets: &mut [DeclaredMarket],
    address: Address,
    account: OrdersAccount,
) -> Result<(), NoMemory>
    ensures { OnOk result (markets.new ≡ with_orders address (orders_account_of account) markets.old) }
{
    if let Some(place) = place_of_declared(address, markets) {
        let market = &mut markets[place];
        return market.add_orders(account);
    }
    Ok(())
}

/// The markets of these accounts.
pub(crate) fn declared(
    alloc: Global,
    markets: Vec<MarketAccounts>,
) -> Result<Vec<DeclaredMarket>, NoMemory>
    ensures { IfOk result (λ declared. declared.items ≡ map market_accounts_of markets.items) }
{
    let mut declared = Vec::with_capacity(alloc, markets.len())?;
    for accounts in markets {
        declared.push(DeclaredMarket::of(accounts))?;
    }
    Ok(declared)
}

/// These markets with their accounts, made one after the other.
pub fn make_markets(
    alloc: Global,
    markets: Vec<DeclaredMarket>,
) -> Result<Vec<DeclaredMarket>, NoMemory>
    ensures { IfOk result (λ made. made.items ≡ markets.items) }
{
    let mut made = Vec::with_capacity(alloc, markets.len())?;
    for market in markets {
        made.push(market.made(alloc)?)?;
    }
    Ok(made)
}

/// The accounts of these markets.
pub(crate) fn all_accounts(
    alloc: Global,
    markets: Vec<DeclaredMarket>,
) -> Result<Vec<MarketAccounts>, NoMemory>
    ensures { IfOk result (λ accounts. map market_accounts_of accounts.items ≡ markets.items) }
{
    let mut accounts = Vec::with_capacity(alloc, markets.len())?;
    for market in markets {
        accounts.push(market.into_accounts(alloc)?)?;
    }
    Ok(accounts)
}

/// Whether a market row passes a limit: 65,536 nodes a side, 65,535 events, 256 bytes of data.
pub(crate) fn exceeds_market(words: &MarketWords) -> bool
    ensures { result ≡ spec.exceeds_market words.now }
{
    65_536 < words.bid_nodes
        || 65_536 < words.ask_nodes
        || 65_535 < words.events
        || 256 < words.bytes.len()
}

/// Whether a side has no nodes, or the queue no room.
fn has_no_room(words: &MarketWords) -> bool
    ensures { result ≡ spec.has_no_room words.now }
{
    words.bid_nodes == 0 || words.ask_nodes == 0 || words.events == 0
}

/// The instruction of a market row: InitializeMarket, with a fee rate below 100 basis points.
fn market_ix(bytes: &[u8]) -> Option<Ix>
    ensures { result ≡ spec.market_ix (decoded bytes.now) }
{
    let Ok(ix) = decode(bytes) else {
        return None;
    };
    match ix {
        Ix::InitializeMarket { fee_rate_bps, .. } => {
            if fee_rate_bps < 100 { Some(ix) } else { None }
        }
        _ => None,
    }
}

/// The market that a row asks for, if it can be made.
#[tactic(auto, unfolding(crate::specs::Rows::set_of))]
pub(crate) fn set_of(words: &MarketWords) -> Result<MarketSet, FaultKind>
    requires { spec.exceeds_market words.now ≡ false }
    ensures set { result ≡ spec.set_of words.now }
    ensures can_make { IfOk result IsMarketSet }
{
    if is_same(words.coin, words.pc) {
        return Err(FaultKind::SetupRefused(SetupCode::OneMint));
    }
    let Some(ix) = market_ix(&words.bytes) else {
        return Err(FaultKind::SetupRefused(SetupCode::Data));
    };
    if has_no_room(words) {
        return Err(FaultKind::SetupRefused(SetupCode::Capacity));
    }
    Ok(MarketSet {
        address: words.address,
        authority: words.authority,
        coin: words.coin,
        pc: words.pc,
        bid_nodes: words.bid_nodes,
        ask_nodes: words.ask_nodes,
        events: words.events,
        ix,
    })
}
