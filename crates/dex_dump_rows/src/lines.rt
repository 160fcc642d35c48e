//! One row of a dump by itself.

ghost use Rattle.std.specs.Prelude.{◌≡◌, ◌<◌};
ghost use Rattle.dex_types.specs.Accounts.{named_of};
ghost use Rattle.dex_rows.specs.Addresses.{address_of};
ghost use Rattle.dex_rows.specs.Base64.{base64_of};
ghost use Rattle.dex_dump_rows.specs.Lines as spec;
ghost use Rattle.dex_dump_rows.specs.Lines.{is_first_row};
ghost use Rattle.dex_dump_rows.specs.Telling.{TellsAs, TellsLine};
ghost use Rattle.dex_dump_rows.specs.declared.lines.LineError.TheVariants.{Grammar, NoMemory as OutOfMemory};

use dex_rows::addresses::address_word;
use dex_rows::base64_words::base64_word;
use dex_rows::printable::row_is_printable;
use dex_rows::records::{Fields, field_at, field_count};
use dex_types::{Address, MarketAccounts, Named, NoMemory, OrdersAccount};
use std::alloc::Global;
use thiserror::Error;

/// What a row states: an account, which of the mints is SRM or MSRM, or the end of the dump.
#[derive(Drop)]
pub enum Line {
    Mint(Named),
    Srm(Address),
    Msrm(Address),
    Wallet(Named),
    /// A market with no open-orders accounts so far.
    Market(MarketAccounts),
    /// An open-orders account of the market with this address.
    Orders(Address, OrdersAccount),
    End,
}

/// Why a row states nothing.
#[derive(Clone, Copy, Debug, PartialEq, Eq, Error)]
pub enum LineError {
    /// It has none of the forms.
    #[error("no row of a dump")]
    Grammar,
    /// Memory was wanting.
    #[error("no memory")]
    NoMemory,
}

impl From<NoMemory> for LineError {
    ghost from_gives = { λ _ e. e ≡ OutOfMemory };

    fn from(_error: NoMemory) -> LineError {
        LineError::NoMemory
    }
}

/// Whether a row is the first of a dump, the one word `dump`.
#[tactic(auto, unfolding(crate::specs::Lines::is_first_row))]
pub fn is_first_row(row: &Fields<'_>) -> bool
    ensures { result ≡ is_first_row row.now }
{
    field_count(row) == 1 && field_at(row, 0) == b"dump".as_slice()
}

/// What a row states by itself. It is no row of a dump where a field has a byte outside 32 to 126.
#[tactic(auto, unfolding(crate::specs::Lines::line_of))]
pub fn line_of(alloc: Global, row: &Fields<'_>) -> Result<Line, LineError>
    ensures { TellsLine result (spec.line_of row.now) }
{
    if !row_is_printable(row) {
        return Err(LineError::Grammar);
    }
    form_of(alloc, field_at(row, 0), row)
}

#[tactic(auto, unfolding(crate::specs::Lines::form_of, crate::specs::Lines::mint_of, crate::specs::Lines::srm_of, crate::specs::Lines::msrm_of, crate::specs::Lines::wallet_of))]
fn form_of(alloc: Global, word: &[u8], row: &Fields<'_>) -> Result<Line, LineError>
    ensures { TellsLine result (spec.form_of word.now row.now) }
{
    if word == b"mint".as_slice() {
        Ok(Line::Mint(account_of(alloc, row)?))
    } else if word == b"srm".as_slice() {
        Ok(Line::Srm(name_of(row)?))
    } else if word == b"msrm".as_slice() {
        Ok(Line::Msrm(name_of(row)?))
    } else if word == b"wallet".as_slice() {
        Ok(Line::Wallet(account_of(alloc, row)?))
    } else if word == b"market".as_slice() {
        market_of(alloc, row)
    } else if word == b"orders".as_slice() {
        orders_of(alloc, row)
    } else if word == b"enddump".as_slice() {
        end_of(row)
    } else {
        Err(LineError::Grammar)
    }
}

/// The mint or wallet of a row.
fn account_of(alloc: Global, row: &Fields<'_>) -> Result<Named, LineError>
    ensures { TellsAs named_of result (spec.with_fields row.now 3 (spec.account_at row.now 1)) }
{
    if field_count(row) != 3 {
        return Err(LineError::Grammar);
    }
    account_at(alloc, row, 1)
}

/// The mint to which a row gives a name.
fn name_of(row: &Fields<'_>) -> Result<Address, LineError>
    ensures { TellsAs (λ mint. mint) result (spec.with_fields row.now 2 (address_of (spec.field_at row.now 1))) }
{
    if field_count(row) != 2 {
        return Err(LineError::Grammar);
    }
    address_at(row, 1)
}

#[tactic(auto, unfolding(crate::specs::Lines::orders_of))]
fn orders_of(alloc: Global, row: &Fields<'_>) -> Result<Line, LineError>
    ensures { TellsLine result (spec.orders_of row.now) }
{
    if field_count(row) != 4 {
        return Err(LineError::Grammar);
    }
    let market = address_at(row, 1)?;
    let Named { address, bytes } = account_at(alloc, row, 2)?;
    Ok(Line::Orders(market, OrdersAccount { address, bytes }))
}

#[tactic(auto, unfolding(crate::specs::Lines::market_of))]
fn market_of(alloc: Global, row: &Fields<'_>) -> Result<Line, LineError>
    ensures { TellsLine result (spec.market_of row.now) }
{
    if field_count(row) != 10 {
        return Err(LineError::Grammar);
    }
    let address = address_at(row, 1)?;
    let authority = address_at(row, 2)?;
    let market = bytes_at(alloc, row, 3)?;
    let coin_vault = bytes_at(alloc, row, 4)?;
    let pc_vault = bytes_at(alloc, row, 5)?;
    let requests = bytes_at(alloc, row, 6)?;
    let events = bytes_at(alloc, row, 7)?;
    let bids = bytes_at(alloc, row, 8)?;
    let asks = bytes_at(alloc, row, 9)?;
    Ok(Line::Market(MarketAccounts {
        address,
        authority,
        market,
        coin_vault,
        pc_vault,
        requests,
        events,
        bids,
        asks,
        orders: Vec::new(alloc),
    }))
}

#[tactic(auto, unfolding(crate::specs::Lines::end_of))]
fn end_of(row: &Fields<'_>) -> Result<Line, LineError>
    ensures { TellsLine result (spec.end_of row.now) }
{
    if field_count(row) != 1 {
        return Err(LineError::Grammar);
    }
    Ok(Line::End)
}

/// An address and an account, in two fields from a place on.
#[tactic(auto, unfolding(crate::specs::Lines::account_at))]
fn account_at(alloc: Global, row: &Fields<'_>, place: usize) -> Result<Named, LineError>
    requires { place < 8 }
    ensures { TellsAs named_of result (spec.account_at row.now place) }
{
    let address = address_at(row, place)?;
    let bytes = bytes_at(alloc, row, place + 1)?;
    Ok(Named { address, bytes })
}

/// The address that a field names.
fn address_at(row: &Fields<'_>, place: usize) -> Result<Address, LineError>
    requires { place < 12 }
    ensures { TellsAs (λ address. address) result (address_of (spec.field_at row.now place)) }
{
    address_word(field_at(row, place)).ok_or(LineError::Grammar)
}

/// The bytes that a field writes.
fn bytes_at(alloc: Global, row: &Fields<'_>, place: usize) -> Result<Vec<u8>, LineError>
    requires { place < 12 }
    ensures { TellsAs (λ bytes. bytes.items) result (base64_of (spec.field_at row.now place)) }
{
    base64_word(alloc, field_at(row, place))?.ok_or(LineError::Grammar)
}
