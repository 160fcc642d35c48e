//! The market of the tests, as it is made.

ghost use Rattle.dex_accounts.specs.Accepted.{IsAccepted};
ghost use Rattle.dex_accounts.specs.Decoded.{AreSound};
ghost use Rattle.dex_make.specs.Blanks.{blank_account};
ghost use Rattle.dex_make.specs.MarketSet.{CanTrade, IsMarketSet};
ghost use Rattle.dex_types.specs.Accounts.{market_accounts_of, orders_account_of};
ghost use Rattle.dex_wallet.specs.TokenAmount.{held_in};
ghost use Rattle.dex_token.specs.TokenAccount.{IsWallet};
ghost use Rattle.std.specs.Prelude.{◌≡◌, ◌∷◌, ◌++◌, [], IfOk, OnOk, map, replicate};

use dex_cell::MarketCell;
use dex_make::{MarketSet, make_market, make_orders};
use dex_token::WalletRef;
use dex_types::{Address, Ix, MarketAccounts, NoMemory, OrdersAccount};
use dex_wallet::Parcel;
use std::alloc::Global;

/// How many rows a cell has room for.
const ROOM: usize = 64;

/// The address whose label is this one, of five letters at most; 0 stands for no letter.
pub(crate) fn labelled(label: [u8; 5]) -> Address
    ensures { result.0 ≡ label ++ replicate 27 0 }
{
    let mut bytes = [0; 32];
    bytes[0] = label[0];
    bytes[1] = label[1];
    bytes[2] = label[2];
    bytes[3] = label[3];
    bytes[4] = label[4];
    Address(bytes)
}

/// The market `m` of base `coin` and quote `usd`, signed for by `admin`: base lots of 100, quote lots of 10, 909 nodes
/// on each side, and 16 events.
fn set() -> MarketSet
    ensures set { IsMarketSet result }
    ensures trades { CanTrade result }
{
    let market = labelled(*b"m\0\0\0\0");
    let coin = labelled(*b"coin\0");
    let pc = labelled(*b"usd\0\0");
    MarketSet {
        address: market,
        authority: labelled(*b"admin"),
        coin,
        pc,
        bid_nodes: 909,
        ask_nodes: 909,
        events: 16,
        ix: Ix::InitializeMarket {
            coin_lot: 100,
            pc_lot: 10,
            fee_rate_bps: 0,
            nonce: 0,
            dust: 1,
        },
    }
}

/// Reserves an open-orders account at an address: it is blank.
fn add_blank(
    alloc: Global,
    orders: &mut Vec<OrdersAccount>,
    address: Address,
) -> Result<(), NoMemory>
    ensures { OnOk result (map orders_account_of orders.new.items
        ≡ map orders_account_of orders.old.items ++ (blank_account address ∷ [])) }
{
    let bytes = make_orders(alloc)?;
    match orders.push(OrdersAccount { address, bytes }) {
        Ok(()) => Ok(()),
        Err(_) => Err(NoMemory),
    }
}

/// The accounts of a market as it is made, with the accounts `amy` and `ben` reserved and not opened.
fn accounts_made(alloc: Global, set: &MarketSet) -> Result<MarketAccounts, NoMemory>
    requires set { IsMarketSet set.now }
    requires trades { CanTrade set.now }
    ensures sound { IfOk result (λ accounts. AreSound (market_accounts_of accounts)) }
    ensures accepted { IfOk result (λ accounts. IsAccepted (market_accounts_of accounts)) }
{
    let amy = labelled(*b"amy\0\0");
    let ben = labelled(*b"ben\0\0");
    let mut accounts = make_market(alloc, set)?;
    add_blank(alloc, &mut accounts.orders, amy)?;
    add_blank(alloc, &mut accounts.orders, ben)?;
    Ok(accounts)
}

/// What a vault holds, as a parcel.
fn held(bytes: &[u8]) -> Parcel
    requires { IsWallet bytes.now }
    ensures { result ≡ held_in bytes.now }
{
    let vault = WalletRef { bytes };
    Parcel::of_supply(vault.mint(), vault.amount())
}

/// The cell of a market as it is made.
pub(crate) fn new_cell(alloc: Global) -> Result<MarketCell, NoMemory> {
    let accounts = accounts_made(alloc, &set())?;
    let coin = held(&accounts.coin_vault);
    let pc = held(&accounts.pc_vault);
    MarketCell::new(alloc, accounts, coin, pc, ROOM)
}
