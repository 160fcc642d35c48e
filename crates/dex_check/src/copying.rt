//! A market's accounts in buffers of their own.

ghost use Rattle.std.specs.Prelude.{◌≡◌, ◌*◌, ◌+◌, ◌≤◌, IfOk, OnOk, length, map};
ghost use Rattle.dex_check.specs.Flaws.{accounts_of};
ghost use Rattle.dex_lent.specs.Flat.{account_in, accounts_in, record_in};
ghost use Rattle.dex_state.specs.Held.{IsAddress, IsHeldMarket};
ghost use Rattle.dex_types.specs.Accounts.{market_accounts_of, orders_account_of};
ghost use Rattle.hex.specs.Hex.{IsBytes};

use crate::market_slices::MarketSlices;
use dex_fields::{Field, get_addr};
use dex_lent::RECORD;
use dex_types::{Address, MarketAccounts, NoMemory, OrdersAccount, add};
use std::alloc::Global;

/// Where an account's address stands in its record.
const ADDRESS: Field = Field { at: 0, len: 32 };

/// An address, of 32 bytes.
fn same_address(address: Address) -> Address
    ensures same { result ≡ address }
    ensures held { IsAddress address }
{
    address
}

/// A copy of bytes.
fn bytes_copy(alloc: Global, bytes: &[u8]) -> Result<Vec<u8>, NoMemory>
    ensures copy { IfOk result (λ copy. copy.items ≡ bytes.now) }
    ensures held { OnOk result (IsBytes bytes.now) }
{
    Ok(Vec::from_slice(alloc, bytes)?)
}

/// The record of an account.
fn record_at(bytes: &[u8], place: usize) -> &[u8]
    requires { 3260 * place + 3260 ≤ length bytes.now }
    ensures { result.now ≡ record_in place bytes.now }
{
    &bytes[RECORD * place..RECORD * place + RECORD]
}

/// The account that a record is.
fn account_copy(alloc: Global, record: &[u8]) -> Result<OrdersAccount, NoMemory>
    requires { length record.now ≡ 3260 }
    ensures { IfOk result (λ copy. orders_account_of copy ≡ account_in record.now) }
{
    let address = Address(get_addr(record, ADDRESS));
    let bytes = Vec::from_slice(alloc, &record[32..])?;
    Ok(OrdersAccount { address, bytes })
}

/// The open-orders accounts.
fn orders_copy(alloc: Global, bytes: &[u8]) -> Result<Vec<OrdersAccount>, NoMemory>
    ensures copy { IfOk result (λ copy. map orders_account_of copy.items ≡ accounts_in bytes.now) }
    ensures held { OnOk result (IsBytes bytes.now) }
{
    let mut copies = Vec::new(alloc);
    for place in 0..bytes.len() / RECORD {
        let copy = account_copy(alloc, record_at(bytes, place))?;
        add(&mut copies, copy)?;
    }
    Ok(copies)
}

/// A copy of all accounts of a market.
pub(crate) fn market_copy(
    alloc: Global,
    market: &MarketSlices<'_>,
) -> Result<MarketAccounts, NoMemory>
    ensures copy { IfOk result (λ copy. market_accounts_of copy ≡ accounts_of market.now) }
    ensures held { OnOk result (IsHeldMarket (accounts_of market.now)) }
{
    Ok(MarketAccounts {
        address: same_address(market.address),
        authority: same_address(market.authority),
        market: bytes_copy(alloc, market.market)?,
        coin_vault: bytes_copy(alloc, market.coin_vault)?,
        pc_vault: bytes_copy(alloc, market.pc_vault)?,
        requests: bytes_copy(alloc, market.requests)?,
        events: bytes_copy(alloc, market.events)?,
        bids: bytes_copy(alloc, market.bids)?,
        asks: bytes_copy(alloc, market.asks)?,
        orders: orders_copy(alloc, market.orders)?,
    })
}
