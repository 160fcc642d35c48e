//! Setup rows, and the rows that choose the program and set the clock.

ghost use Rattle.std.specs.Prelude.{◌≡◌, IfSome, slice_index};
ghost use Rattle.dex_statement.specs.Setup as setup;
ghost use Rattle.dex_statement.specs.Telling.{Tells};

use crate::faults::{FaultKind, RowError};
use crate::fields::{address_at, bytes_at, u32_at};
use crate::statement::Statement;
use crate::words::time_word;
use dex_rows::addresses::address_word;
use dex_rows::numbers::{u8_word, u64_word};
use dex_rows::records::{Fields, field_at, field_count};
use dex_types::{Address, Program};
use std::alloc::Global;
use std::marker::Model;

/// What a market row states: the market's address, whose last byte is 0, the mints of base (coin) and quote (pc), the
/// person who signs for it, how many nodes each side and how many events the queue is to have, and the bytes of the
/// instruction that says the rest.
#[derive(Debug, Drop)]
pub struct MarketWords {
    pub address: Address,
    pub coin: Address,
    pub pc: Address,
    pub authority: Address,
    pub bid_nodes: u32,
    pub ask_nodes: u32,
    pub events: u32,
    pub bytes: Vec<u8>,
}

impl Model for MarketWords {
    ghost use Rattle.std.specs.Prelude.{◌≡◌, slice_index};
    ghost use Rattle.dex_statement.specs.Stated.{PlainMarketWords};

    ghost Value = { PlainMarketWords };

    ghost view = { λ s. record {
      address = s.address;
      coin = s.coin;
      pc = s.pc;
      authority = s.authority;
      bid_nodes = s.bid_nodes;
      ask_nodes = s.ask_nodes;
      events = s.events;
      bytes = s.bytes.items;
    } };

    ghost invariant = { λ s. slice_index s.address.0 31 ≡ 0 };
}

/// The program that a word names.
fn program_word(word: &[u8]) -> Option<Program>
    ensures { result ≡ setup.program_word word.now }
{
    if word == b"serum".as_slice() {
        Some(Program::Serum)
    } else if word == b"openbook".as_slice() {
        Some(Program::OpenBook)
    } else {
        None
    }
}

/// What a `program` row states.
#[tactic(auto, unfolding(crate::specs::Setup::program_of))]
pub(crate) fn program_of(row: &Fields<'_>) -> Result<Statement, FaultKind>
    ensures { result ≡ setup.program_of row.now }
{
    if field_count(row) != 2 {
        return Err(FaultKind::FieldCount);
    }
    let program = program_word(field_at(row, 1)).ok_or(FaultKind::UnknownRow)?;
    Ok(Statement::Program(program))
}

/// What a `clock` row states.
#[tactic(auto, unfolding(crate::specs::Setup::clock_of))]
pub(crate) fn clock_of(row: &Fields<'_>) -> Result<Statement, FaultKind>
    ensures { result ≡ setup.clock_of row.now }
{
    if field_count(row) != 2 {
        return Err(FaultKind::FieldCount);
    }
    let now = time_word(field_at(row, 1)).ok_or(FaultKind::BadNumber)?;
    Ok(Statement::Clock(now))
}

/// What a `mint` row states.
#[tactic(auto, unfolding(crate::specs::Setup::mint_of))]
pub(crate) fn mint_of(row: &Fields<'_>) -> Result<Statement, FaultKind>
    ensures { result ≡ setup.mint_of row.now }
{
    if field_count(row) != 3 {
        return Err(FaultKind::FieldCount);
    }
    let decimals = u8_word(field_at(row, 2)).ok_or(FaultKind::BadNumber)?;
    let address = address_at(row, 1)?;
    Ok(Statement::Mint { address, decimals })
}

/// The mint that a `srm` or `msrm` row names.
#[tactic(auto, unfolding(crate::specs::Setup::discount_of))]
pub(crate) fn discount_of(row: &Fields<'_>) -> Result<Address, FaultKind>
    ensures { result ≡ setup.discount_of row.now }
{
    if field_count(row) != 2 {
        return Err(FaultKind::FieldCount);
    }
    address_at(row, 1)
}

/// What a `wallet` row states.
#[tactic(auto, unfolding(crate::specs::Setup::wallet_of))]
pub(crate) fn wallet_of(row: &Fields<'_>) -> Result<Statement, FaultKind>
    ensures { result ≡ setup.wallet_of row.now }
{
    if field_count(row) != 5 {
        return Err(FaultKind::FieldCount);
    }
    let amount = u64_word(field_at(row, 4)).ok_or(FaultKind::BadNumber)?;
    let address = address_at(row, 1)?;
    let mint = address_at(row, 2)?;
    let owner = address_at(row, 3)?;
    Ok(Statement::Wallet {
        address,
        mint,
        owner,
        amount,
    })
}

/// What an `orders` row states.
#[tactic(auto, unfolding(crate::specs::Setup::orders_of))]
pub(crate) fn orders_of(row: &Fields<'_>) -> Result<Statement, FaultKind>
    ensures { result ≡ setup.orders_of row.now }
{
    if field_count(row) != 3 {
        return Err(FaultKind::FieldCount);
    }
    let market = address_at(row, 1)?;
    let address = address_at(row, 2)?;
    Ok(Statement::Orders { market, address })
}

/// The address of a market to be made, whose last byte is 0.
#[tactic(auto, unfolding(crate::specs::Setup::market_word))]
fn market_word(word: &[u8]) -> Option<Address>
    ensures word { result ≡ setup.market_word word.now }
    ensures last { IfSome result (λ address. slice_index address.0 31 ≡ 0) }
{
    let address = address_word(word)?;
    if address.0[31] == 0 {
        Some(address)
    } else {
        None
    }
}

/// What a `market` row states.
#[tactic(auto, unfolding(crate::specs::Setup::market_of))]
pub(crate) fn market_of(alloc: Global, row: &Fields<'_>) -> Result<MarketWords, RowError>
    ensures { Tells result (setup.market_of row.now) }
{
    if field_count(row) != 9 {
        return Err(RowError::Fault(FaultKind::FieldCount));
    }
    let bid_nodes = u32_at(row, 5)?;
    let ask_nodes = u32_at(row, 6)?;
    let events = u32_at(row, 7)?;
    let bytes = bytes_at(alloc, row, 8)?;
    let address = market_word(field_at(row, 1)).ok_or(FaultKind::BadLabel)?;
    let coin = address_at(row, 2)?;
    let pc = address_at(row, 3)?;
    let authority = address_at(row, 4)?;
    Ok(MarketWords {
        address,
        coin,
        pc,
        authority,
        bid_nodes,
        ask_nodes,
        events,
        bytes,
    })
}
