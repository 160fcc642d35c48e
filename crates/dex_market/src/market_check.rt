//! The check of a market account, by the rules that need that account alone.

ghost use Rattle.std.specs.Prelude.{◌≡◌, ◌<◌, ◌≤◌, ◌↔◌, length, take, IsOk};
ghost use Rattle.std.specs.List.{list_any};
ghost use Rattle.std.specs.Result.{result_err};
ghost use Rattle.dex_fields.specs.Bytes.{IsWithin, end_of};
ghost use Rattle.dex_market.specs.MarketAccount.{IsMarket, address_in};
ghost use Rattle.dex_market.specs.Faults.{address_fault, addresses_rule, lot_rule, market_fault, market_fields_rule, market_flags_rule, mint_rule, field_at, is_address_at};

use crate::faults::frame_rule;
use bitflags::Flags;
use dex_fields::market::{
    ACCOUNT_FLAGS, ASKS, BIDS, COIN_LOT_SIZE, COIN_MINT, COIN_VAULT, EVENT_Q, LAYOUT, OWN_ADDRESS,
    PC_LOT_SIZE, PC_MINT, PC_VAULT, REQ_Q,
};
use dex_fields::{Field, get_addr, get_u64};
use dex_types::{AccountFault, AccountFlags, Address};

/// The fields of a market's addresses, in the order in which they stand.
const ADDRESSES: [Field; 9] = [
    OWN_ADDRESS,
    COIN_MINT,
    PC_MINT,
    COIN_VAULT,
    PC_VAULT,
    REQ_Q,
    EVENT_Q,
    BIDS,
    ASKS,
];

/// Whether the bytes are a market account, by the rules that need this account alone; else the first rule that is
/// broken, by its kind and then by its place.
///
/// In the order of their kinds the rules are: the length is 388; `serum` stands at the front and `padding` at the end;
/// the flags are 3, or 131 for a disabled market; the two mints differ, no vault, queue or side has an address that
/// stands before it in the account, and no lot size is 0.
pub fn check_market(bytes: &[u8]) -> Result<(), AccountFault>
    ensures ok { IsOk result ↔ IsMarket bytes.now }
    ensures fault { result_err result ≡ market_fault bytes.now }
{
    match market_fault(bytes) {
        Some(fault) => Err(fault),
        None => Ok(()),
    }
}

#[tactic(auto, unfolding(crate::specs::Faults::market_fault))]
fn market_fault(bytes: &[u8]) -> Option<AccountFault>
    ensures { result ≡ market_fault bytes.now }
{
    if bytes.len() != LAYOUT.size {
        return Some(AccountFault::size(bytes.len(), LAYOUT.size));
    }
    frame_rule(bytes)
        .or(market_flags_rule(bytes))
        .or(market_fields_rule(bytes))
}

fn market_flags_rule(bytes: &[u8]) -> Option<AccountFault>
    requires { length bytes.now ≡ 388 }
    ensures { result ≡ market_flags_rule bytes.now }
{
    let flags = AccountFlags::from_bits_retain(get_u64(bytes, ACCOUNT_FLAGS));
    if flags == AccountFlags::MARKET_ACCOUNT || flags == AccountFlags::DISABLED_MARKET_ACCOUNT {
        None
    } else {
        Some(AccountFault::flags(flags.bits(), AccountFlags::MARKET_ACCOUNT.0))
    }
}

#[tactic(auto, unfolding(crate::specs::Faults::market_fields_rule))]
fn market_fields_rule(bytes: &[u8]) -> Option<AccountFault>
    requires { length bytes.now ≡ 388 }
    ensures { result ≡ market_fields_rule bytes.now }
{
    mint_rule(bytes)
        .or(addresses_rule(bytes))
        .or(lot_rule(bytes, COIN_LOT_SIZE))
        .or(lot_rule(bytes, PC_LOT_SIZE))
}

fn mint_rule(bytes: &[u8]) -> Option<AccountFault>
    requires { length bytes.now ≡ 388 }
    ensures { result ≡ mint_rule bytes.now }
{
    if address_in(bytes, PC_MINT) == address_in(bytes, COIN_MINT) {
        Some(address_fault(bytes, PC_MINT))
    } else {
        None
    }
}

fn addresses_rule(bytes: &[u8]) -> Option<AccountFault>
    requires { length bytes.now ≡ 388 }
    ensures { result ≡ addresses_rule bytes.now }
{
    for later in 3..ADDRESSES.len() {
        if stands_before(bytes, later) {
            return Some(address_fault(bytes, address_field(later)));
        }
    }
    None
}

/// Whether address number `later` is also one of those before it.
fn stands_before(bytes: &[u8], later: usize) -> bool
    requires size { length bytes.now ≡ 388 }
    requires in_table { later < 9 }
    ensures { result ≡ list_any (is_address_at bytes.now (field_at later)) (take later ADDRESSES) }
{
    let address = address_in(bytes, address_field(later));
    for earlier in 0..later {
        if address == address_in(bytes, address_field(earlier)) {
            return true;
        }
    }
    false
}

/// The field of address number `number`.
fn address_field(number: usize) -> Field
    requires { number < 9 }
    ensures field { result ≡ field_at number }
    ensures within { end_of result ≤ 388 }
    ensures wide { result.len ≡ 32 }
{
    ADDRESSES[number]
}

fn lot_rule(bytes: &[u8], field: Field) -> Option<AccountFault>
    requires within { IsWithin field bytes.now }
    requires wide { field.len ≡ 8 }
    requires low { field.at < 388 }
    ensures { result ≡ lot_rule bytes.now field }
{
    if get_u64(bytes, field) == 0 {
        Some(AccountFault::word(field.at, 0, 1))
    } else {
        None
    }
}

fn address_in(bytes: &[u8], field: Field) -> Address
    requires within { IsWithin field bytes.now }
    requires wide { field.len ≡ 32 }
    ensures { result ≡ address_in bytes.now field }
{
    Address(get_addr(bytes, field))
}

/// The fault of an address that stands elsewhere too, reported by its first byte.
fn address_fault(bytes: &[u8], field: Field) -> AccountFault
    requires within { field.at < length bytes.now }
    requires low { field.at < 388 }
    ensures { result ≡ address_fault bytes.now field }
{
    AccountFault::word(field.at, u64::from(bytes[field.at]), 0)
}
