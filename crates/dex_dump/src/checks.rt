//! The checks of the accounts of one row.

ghost use Rattle.std.specs.Prelude.{◌≡◌, ◌≤◌, ◌<◌, ◌^◌, [], ◌∷◌, IfSome, IsNone, length};
ghost use Rattle.dex_types.specs.Accounts.{market_accounts_of, accounts_of};
ghost use Rattle.dex_fields.specs.Bytes.{IsWithin, bytes_in};
ghost use Rattle.dex_fields.specs.Frame as frame;
ghost use Rattle.dex_market.specs.Faults as market_faults;
ghost use Rattle.dex_market.specs.MarketAccount as market_account;
ghost use Rattle.dex_orders.specs.Faults as orders_faults;
ghost use Rattle.dex_token.specs.Faults as token_faults;
ghost use Rattle.dex_slab.specs.Slab.{IsSlabSize};
ghost use Rattle.dex_dump.specs.Checks as spec;
ghost use Rattle.dex_dump.specs.Checks.{by_rules, by_slab, part_checks, queue_checks, side_checks, vault_checks};
ghost use Rattle.dex_dump.specs.Telling.{TellsChecks, plain_reading};

use crate::reading::{Reading, is_mint};
use crate::taken::TakenAddresses;
use dex_fields::{
    Difference, Field, frame_difference, get_addr, get_u64, market, open_orders, slab,
    token_account,
};
use dex_market::{check_market, check_requests};
use dex_orders::check_orders;
use dex_ring::check_events;
use dex_slab::side_flags;
use dex_slab_check::is_well_formed;
use dex_token::check_wallet;
use dex_types::{AccountFault, Accounts, Address, MarketAccounts, Side};

/// The least and the greatest length of a side's account: of one node, and of 65,536 nodes and 71 bytes more.
const LEAST_SIDE: usize = 124;

const MOST_SIDE: usize = 4_718_715;

/// A check that fails: the account, and its fault.
#[derive(Clone, Copy, Debug, PartialEq, Eq)]
pub struct Failed {
    pub account: Address,
    pub fault: AccountFault,
}

/// The rules of an account, of which the first that is broken is reported.
pub fn by_rules(account: Address, fault: Option<AccountFault>) -> Result<(), Failed>
    ensures { TellsChecks result (by_rules account fault ∷ []) }
{
    match fault {
        Some(fault) => Err(Failed { account, fault }),
        None => Ok(()),
    }
}

/// The rules of a side's slab.
fn by_slab(account: Address, bytes: &[u8], side: Side) -> Result<(), Failed>
    requires { IsSlabSize (length bytes.now) }
    ensures { TellsChecks result (by_slab account bytes.now ∷ []) }
{
    match is_well_formed(bytes, side) {
        Ok(()) => Ok(()),
        Err(fault) => Err(Failed {
            account,
            fault: AccountFault {
                kind: 6,
                place: fault.node,
                found: fault.found,
                wanted: fault.wanted,
            },
        }),
    }
}

/// The lower of two faults of one account, by their kinds and then by their places.
pub(crate) fn lower(
    fault: Option<AccountFault>,
    other: Option<AccountFault>,
) -> Option<AccountFault>
    ensures { result ≡ spec.lower fault other }
{
    match (fault, other) {
        (Some(fault), Some(other)) => Some(if comes_before(other, fault) {
            other
        } else {
            fault
        }),
        (None, other) => other,
        (fault, None) => fault,
    }
}

fn comes_before(fault: AccountFault, other: AccountFault) -> bool
    ensures { result ≡ spec.comes_before fault other }
{
    fault.kind < other.kind || (fault.kind == other.kind && fault.place < other.place)
}

/// The address that stands in a field.
pub fn address_in(bytes: &[u8], field: Field) -> Address
    requires within { IsWithin field bytes.now }
    requires wide { field.len ≡ 32 }
    ensures { result ≡ market_account.address_in bytes.now field }
{
    Address(get_addr(bytes, field))
}

/// The first byte at which the address in a field differs from the one that is wanted.
fn difference(bytes: &[u8], field: Field, wanted: Address) -> Option<Difference>
    requires within { IsWithin field bytes.now }
    requires wide { field.len ≡ 32 }
    requires low { field.at < 4096 }
    ensures first { result ≡ frame.difference_from field.at (bytes_in bytes.now field) wanted.0 }
    ensures near { IfSome result (λ difference. difference.place < 2 ^ 32) }
{
    let found = get_addr(bytes, field);
    for (i, byte) in wanted.0.iter().enumerate() {
        if found[i] != *byte {
            return Some(Difference {
                place: field.at + i,
                found: found[i],
                wanted: *byte,
            });
        }
    }
    None
}

pub(crate) fn address_rule(bytes: &[u8], field: Field, wanted: Address) -> Option<AccountFault>
    requires within { IsWithin field bytes.now }
    requires wide { field.len ≡ 32 }
    requires low { field.at < 4096 }
    ensures { result ≡ spec.address_rule bytes.now field wanted }
{
    let d = difference(bytes, field, wanted)?;
    Some(AccountFault::word(d.place, u64::from(d.found), u64::from(d.wanted)))
}

/// The address in a field, as a fault: its first byte, and that 0 is wanted there.
fn address_fault(bytes: &[u8], field: Field) -> AccountFault
    requires within { IsWithin field bytes.now }
    requires wide { field.len ≡ 32 }
    requires low { field.at < 4096 }
    ensures { result ≡ market_faults.address_fault bytes.now field }
{
    AccountFault::word(field.at, u64::from(bytes[field.at]), 0)
}

/// The market names a mint that is not declared.
fn declared_rule(accounts: &Accounts, bytes: &[u8], field: Field) -> Option<AccountFault>
    requires within { IsWithin field bytes.now }
    requires wide { field.len ≡ 32 }
    requires low { field.at < 4096 }
    ensures { result ≡ spec.declared_rule (accounts_of accounts.now) bytes.now field }
{
    if is_mint(accounts, address_in(bytes, field)) {
        None
    } else {
        Some(address_fault(bytes, field))
    }
}

/// An address of a vault, a queue or a side is taken.
fn taken_rule(taken: &TakenAddresses, bytes: &[u8], field: Field) -> Option<AccountFault>
    requires within { IsWithin field bytes.now }
    requires wide { field.len ≡ 32 }
    requires low { field.at < 4096 }
    ensures { result ≡ spec.taken_rule taken.now bytes.now field }
{
    if taken.has(address_in(bytes, field)) {
        Some(address_fault(bytes, field))
    } else {
        None
    }
}

#[tactic(auto, unfolding(crate::specs::Checks::parts_rule))]
fn parts_rule(taken: &TakenAddresses, bytes: &[u8]) -> Option<AccountFault>
    requires { length bytes.now ≡ 388 }
    ensures { result ≡ spec.parts_rule taken.now bytes.now }
{
    taken_rule(taken, bytes, market::COIN_VAULT)
        .or(taken_rule(taken, bytes, market::PC_VAULT))
        .or(taken_rule(taken, bytes, market::REQ_Q))
        .or(taken_rule(taken, bytes, market::EVENT_Q))
        .or(taken_rule(taken, bytes, market::BIDS))
        .or(taken_rule(taken, bytes, market::ASKS))
}

#[tactic(auto, unfolding(crate::specs::Checks::market_others))]
fn market_others(reading: &Reading, address: Address, bytes: &[u8]) -> Option<AccountFault>
    requires { length bytes.now ≡ 388 }
    ensures { result ≡ spec.market_others (plain_reading reading.now) address bytes.now }
{
    address_rule(bytes, market::OWN_ADDRESS, address)
        .or(declared_rule(&reading.accounts, bytes, market::COIN_MINT))
        .or(declared_rule(&reading.accounts, bytes, market::PC_MINT))
        .or(parts_rule(&reading.taken, bytes))
}

/// The rules of a market account, by itself and with other accounts.
#[tactic(auto, unfolding(crate::specs::Checks::market_rule))]
pub fn market_rule(reading: &Reading, address: Address, bytes: &[u8]) -> Option<AccountFault>
    ensures rule { result ≡ spec.market_rule (plain_reading reading.now) address bytes.now }
    ensures size { IsNone result → length bytes.now ≡ 388 }
{
    let itself = check_market(bytes).err();
    if bytes.len() != market::LAYOUT.size {
        return itself;
    }
    lower(itself, market_others(reading, address, bytes))
}

/// The rules of a wallet.
#[tactic(auto, unfolding(crate::specs::Checks::wallet_rule))]
pub fn wallet_rule(accounts: &Accounts, bytes: &[u8]) -> Option<AccountFault>
    ensures { result ≡ spec.wallet_rule (accounts_of accounts.now) bytes.now }
{
    let itself = check_wallet(bytes).err();
    if bytes.len() != token_account::LAYOUT.size {
        return itself;
    }
    lower(itself, wallet_others(accounts, bytes))
}

fn wallet_others(accounts: &Accounts, bytes: &[u8]) -> Option<AccountFault>
    requires { length bytes.now ≡ 165 }
    ensures { result ≡ spec.wallet_others (accounts_of accounts.now) bytes.now }
{
    if is_mint(accounts, address_in(bytes, token_account::MINT)) {
        None
    } else {
        Some(token_fault(0, bytes[0], 0))
    }
}

/// The rules of a vault of a mint.
#[tactic(auto, unfolding(crate::specs::Checks::vault_rule))]
fn vault_rule(mint: Address, bytes: &[u8]) -> Option<AccountFault>
    ensures { result ≡ spec.vault_rule mint bytes.now }
{
    let itself = check_wallet(bytes).err();
    if bytes.len() != token_account::LAYOUT.size {
        return itself;
    }
    lower(itself, vault_others(mint, bytes))
}

fn vault_others(mint: Address, bytes: &[u8]) -> Option<AccountFault>
    requires { length bytes.now ≡ 165 }
    ensures { result ≡ spec.vault_others mint bytes.now }
{
    let d = difference(bytes, token_account::MINT, mint)?;
    Some(token_fault(d.place, d.found, d.wanted))
}

/// Kind 10: a byte of a token account. A place above the largest u32 is reported as that.
fn token_fault(place: usize, found: u8, wanted: u8) -> AccountFault
    requires { place < 2 ^ 32 }
    ensures { result ≡ token_faults.token_fault place found wanted }
{
    AccountFault {
        kind: 10,
        place: place as u32,
        found: u128::from(found),
        wanted: u128::from(wanted),
    }
}

/// The rules of an open-orders account of a market.
#[tactic(auto, unfolding(crate::specs::Checks::orders_rule))]
pub fn orders_rule(market: Address, bytes: &[u8]) -> Option<AccountFault>
    ensures { result ≡ spec.orders_rule market bytes.now }
{
    let itself = check_orders(bytes).err();
    if bytes.len() != open_orders::LAYOUT.size {
        return itself;
    }
    lower(itself, orders_others(market, bytes))
}

fn orders_others(market: Address, bytes: &[u8]) -> Option<AccountFault>
    requires { length bytes.now ≡ 3228 }
    ensures { result ≡ spec.orders_others market bytes.now }
{
    if is_blank(bytes) {
        None
    } else {
        address_rule(bytes, open_orders::MARKET, market)
    }
}

/// Whether all bytes are zero. It looks at each, also after one that is not: so many can be looked at together.
pub(crate) fn is_blank(bytes: &[u8]) -> bool
    ensures { result ≡ orders_faults.are_zeros bytes.now }
{
    let mut all = true;
    'bytes: for place in 0..bytes.len() {
        all &= bytes[place] == 0;
    }
    all
}

/// The rules of a side's account, but for those of its slab.
#[tactic(auto, unfolding(crate::specs::Checks::side_rule))]
fn side_rule(side: Side, bytes: &[u8]) -> Option<AccountFault>
    ensures rule { result ≡ spec.side_rule side bytes.now }
    ensures size { IsNone result → IsSlabSize (length bytes.now) }
{
    if let Some(fault) = side_size_rule(bytes) {
        return Some(fault);
    }
    text_rule(bytes).or(side_flags_rule(side, bytes))
}

fn side_size_rule(bytes: &[u8]) -> Option<AccountFault>
    ensures rule { result ≡ spec.side_size_rule bytes.now }
    ensures least { IsNone result → 124 ≤ length bytes.now }
    ensures size { IsNone result → IsSlabSize (length bytes.now) }
{
    let size = bytes.len();
    if size < LEAST_SIDE {
        Some(AccountFault::size(size, LEAST_SIDE))
    } else if MOST_SIDE < size {
        Some(AccountFault::size(size, MOST_SIDE))
    } else {
        None
    }
}

fn text_rule(bytes: &[u8]) -> Option<AccountFault>
    requires { 12 ≤ length bytes.now }
    ensures { result ≡ spec.text_rule bytes.now }
{
    frame_difference(bytes).map(|d| AccountFault::text(d.place, d.found, d.wanted))
}

fn side_flags_rule(side: Side, bytes: &[u8]) -> Option<AccountFault>
    requires { 124 ≤ length bytes.now }
    ensures { result ≡ spec.side_flags_rule side bytes.now }
{
    let wanted = side_flags(side);
    let flags = get_u64(bytes, slab::ACCOUNT_FLAGS);
    if flags == wanted {
        None
    } else {
        Some(AccountFault::flags(flags, wanted))
    }
}

/// The vaults, queues and sides of a market whose own account holds.
pub fn check_parts(accounts: &MarketAccounts) -> Result<(), Failed>
    requires { length accounts.now.market.items ≡ 388 }
    ensures { TellsChecks result
        (part_checks (market_account.market_terms accounts.now.market.items) (market_accounts_of accounts.now)) }
{
    let bytes = &accounts.market;
    check_vaults(accounts)?;
    check_queues(accounts)?;
    check_side(address_in(bytes, market::BIDS), &accounts.bids, Side::Bid)?;
    check_side(address_in(bytes, market::ASKS), &accounts.asks, Side::Ask)?;
    Ok(())
}

fn check_vaults(accounts: &MarketAccounts) -> Result<(), Failed>
    requires { length accounts.now.market.items ≡ 388 }
    ensures { TellsChecks result
        (vault_checks (market_account.market_terms accounts.now.market.items) (market_accounts_of accounts.now)) }
{
    let bytes = &accounts.market;
    by_rules(
        address_in(bytes, market::COIN_VAULT),
        vault_rule(address_in(bytes, market::COIN_MINT), &accounts.coin_vault),
    )?;
    by_rules(
        address_in(bytes, market::PC_VAULT),
        vault_rule(address_in(bytes, market::PC_MINT), &accounts.pc_vault),
    )?;
    Ok(())
}

fn check_queues(accounts: &MarketAccounts) -> Result<(), Failed>
    requires { length accounts.now.market.items ≡ 388 }
    ensures { TellsChecks result
        (queue_checks (market_account.market_terms accounts.now.market.items) (market_accounts_of accounts.now)) }
{
    let bytes = &accounts.market;
    by_rules(
        address_in(bytes, market::REQ_Q),
        check_requests(&accounts.requests).err(),
    )?;
    by_rules(
        address_in(bytes, market::EVENT_Q),
        check_events(&accounts.events).err(),
    )?;
    Ok(())
}

/// A side's account, and its slab.
fn check_side(account: Address, bytes: &[u8], side: Side) -> Result<(), Failed>
    ensures { TellsChecks result (side_checks account side bytes.now) }
{
    let fault = side_rule(side, bytes);
    by_rules(account, fault)?;
    by_slab(account, bytes, side)?;
    Ok(())
}
