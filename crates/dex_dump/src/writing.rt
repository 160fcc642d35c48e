//! Writing a dump.

ghost use Rattle.std.specs.Prelude.{◌≡◌, ◌≤◌, [], ◌∷◌, ◌++◌, IfOk, IfSome, OnOk, codes, length, map, replicate};
ghost use Rattle.std.specs.List.{All, flat_map};
ghost use Rattle.dex_types.specs.Accounts.{accounts_of, market_accounts_of, named_of, orders_account_of};
ghost use Rattle.dex_types.specs.Text.{address_text};
ghost use Rattle.hex.specs.Hex.{IsBytes};
ghost use Rattle.dex_state.specs.Accepted.{AreAccepted};
ghost use Rattle.dex_types.specs.declared.limits.Limits.{Limits};
ghost use Rattle.dex_state.specs.Held.{HoldBytes, IsAddress, IsHeld, IsHeldMarket};
ghost use Rattle.dex_dump.specs.Answers.{IsReadAs};
ghost use Rattle.dex_dump.specs.DumpText.{account_row, account_rows, base64_text, dump_text, first_row, line_text, lines_text};
ghost use Rattle.dex_dump.specs.DumpText.{market_row, market_rows, named_rows, orders_row};
ghost use Rattle.dex_dump.specs.Terms.{terms_of, terms_text};

use crate::checks::is_blank;
use base64::engine::general_purpose::STANDARD;
use dex_types::{Accounts, Address, MarketAccounts, Named, NoMemory, OrdersAccount};
use std::alloc::{AllocError, Global};

/// The dump of all accounts: a row for each, in declared order, between the rows `dump` and `enddump`.
///
/// A mint, a wallet or an open-orders account is one field of base64, with the standard alphabet and padding; the row
/// of a market has one for each of its seven accounts, and its open-orders accounts have rows behind it. The rows `srm`
/// and `msrm` stand behind the mints, where such a mint is named. Accepted accounts are read back from it.
pub fn write_dump(alloc: Global, accounts: &Accounts) -> Result<Vec<u8>, NoMemory>
    ensures text { IfOk result (λ text. text.items ≡ dump_text (accounts_of accounts.now)) }
    ensures read_back { IfOk result (λ text.
        (limits : Limits) → AreAccepted limits (accounts_of accounts.now)
        → IsReadAs limits text.items (accounts_of accounts.now)) }
{
    let mut text = Vec::with_capacity(alloc, room_of_dump(accounts))?;
    match append_dump(&mut text, accounts) {
        Ok(()) => Ok(text),
        Err(_) => Err(NoMemory),
    }
}

/// Room in bytes for nearly every dump of accounts, so that its text need not grow: four characters for three bytes,
/// and the words around them. No clause says how much that is.
pub fn room_of_dump(accounts: &Accounts) -> usize {
    let few = accounts.mints.len().saturating_add(accounts.wallets.len());
    let mut room = few.saturating_mul(320).saturating_add(1024);
    'markets: for market in &accounts.markets {
        room = room.saturating_add(room_of_market(market));
    }
    room
}

/// Like `room_of_dump`, for the rows of a market.
pub fn room_of_market(market: &MarketAccounts) -> usize {
    let mut bytes: usize = 1024;
    'sides: for buffer in [&market.requests, &market.events, &market.bids, &market.asks] {
        bytes = bytes.saturating_add(buffer.len());
    }
    'orders: for account in &market.orders {
        bytes = bytes
            .saturating_add(account.bytes.len())
            .saturating_add(128);
    }
    bytes.saturating_add(bytes / 3)
}

/// Writes the dump of all accounts after a text. Where memory is wanting, a part of it may have been written. What was
/// written are bytes, at addresses of 32 of them, as all buffers and addresses hold.
pub fn append_dump(text: &mut Vec<u8>, accounts: &Accounts) -> Result<(), AllocError>
    ensures text { OnOk result (text.new.items ≡ text.old.items ++ dump_text (accounts_of accounts.now)) }
    ensures held { OnOk result (HoldBytes (accounts_of accounts.now)) }
{
    write_front(text, accounts)?;
    write_markets(text, &accounts.markets)?;
    write_word(text, "enddump\n")?;
    Ok(())
}

/// The rows in front of those of markets.
pub fn write_front(text: &mut Vec<u8>, accounts: &Accounts) -> Result<(), AllocError>
    ensures text { let front = account_rows (record (accounts_of accounts.now) { markets = [] }) in
        OnOk result (text.new.items ≡ text.old.items ++ lines_text (first_row ∷ front)) }
    ensures held { OnOk result (HoldBytes (record (accounts_of accounts.now) { markets = [] })) }
{
    write_word(text, "dump\n")?;
    write_accounts(text, "mint", &accounts.mints)?;
    write_name(text, "srm", accounts.srm)?;
    write_name(text, "msrm", accounts.msrm)?;
    write_accounts(text, "wallet", &accounts.wallets)?;
    Ok(())
}

/// The rows of mints or of wallets.
fn write_accounts(text: &mut Vec<u8>, word: &str, accounts: &[Named]) -> Result<(), AllocError>
    ensures text { OnOk result (text.new.items
        ≡ text.old.items ++ lines_text (map (account_row word.now) (map named_of accounts.now))) }
    ensures held { OnOk result (All IsHeld (map named_of accounts.now)) }
{
    for account in accounts {
        write_account(text, word, account)?;
    }
    Ok(())
}

fn write_markets(text: &mut Vec<u8>, markets: &[MarketAccounts]) -> Result<(), AllocError>
    ensures text { OnOk result (text.new.items
        ≡ text.old.items ++ lines_text (flat_map market_rows (map market_accounts_of markets.now))) }
    ensures held { OnOk result (All IsHeldMarket (map market_accounts_of markets.now)) }
{
    for market in markets {
        write_market_rows(text, market)?;
    }
    Ok(())
}

/// The row of a market, and those of its open-orders accounts.
pub fn write_market_rows(text: &mut Vec<u8>, market: &MarketAccounts) -> Result<(), AllocError>
    ensures text { OnOk result (text.new.items
        ≡ text.old.items ++ lines_text (market_rows (market_accounts_of market.now))) }
    ensures held { OnOk result (IsHeldMarket (market_accounts_of market.now)) }
{
    write_market(text, market)?;
    write_orders(text, market.address, &market.orders)?;
    Ok(())
}

pub(crate) fn write_orders(
    text: &mut Vec<u8>,
    market: Address,
    accounts: &[OrdersAccount],
) -> Result<(), AllocError>
    ensures text { OnOk result (text.new.items
        ≡ text.old.items ++ lines_text (map (orders_row market) (map orders_account_of accounts.now))) }
    ensures held { OnOk result (All IsHeld (map orders_account_of accounts.now)) }
{
    for account in accounts {
        write_orders_account(text, market, account)?;
    }
    Ok(())
}

/// The row of a mint that has a name, if there is one.
fn write_name(text: &mut Vec<u8>, word: &str, mint: Option<Address>) -> Result<(), AllocError>
    ensures text { OnOk result (text.new.items
        ≡ text.old.items ++ lines_text (named_rows word.now mint)) }
    ensures held { OnOk result (IfSome mint IsAddress) }
{
    let Some(mint) = mint else {
        return Ok(());
    };
    write_word(text, word)?;
    write_address(text, mint)?;
    end_row(text)?;
    Ok(())
}

/// The row of a mint or a wallet.
fn write_account(text: &mut Vec<u8>, word: &str, account: &Named) -> Result<(), AllocError>
    ensures text { OnOk result (text.new.items
        ≡ text.old.items ++ line_text (account_row word.now (named_of account.now))) }
    ensures held { OnOk result (IsHeld (named_of account.now)) }
{
    write_word(text, word)?;
    write_address(text, account.address)?;
    write_bytes(text, &account.bytes)?;
    end_row(text)?;
    Ok(())
}

/// The row of an open-orders account.
fn write_orders_account(
    text: &mut Vec<u8>,
    market: Address,
    account: &OrdersAccount,
) -> Result<(), AllocError>
    ensures text { OnOk result (text.new.items
        ≡ text.old.items ++ line_text (orders_row market (orders_account_of account.now))) }
    ensures held { OnOk result (IsHeld (orders_account_of account.now)) }
{
    write_word(text, "orders")?;
    write_address(text, market)?;
    write_address(text, account.address)?;
    write_bytes(text, &account.bytes)?;
    end_row(text)?;
    Ok(())
}

/// The row of a market, without its open-orders accounts.
fn write_market(text: &mut Vec<u8>, market: &MarketAccounts) -> Result<(), AllocError>
    ensures text { OnOk result (text.new.items
        ≡ text.old.items ++ line_text (market_row (market_accounts_of market.now))) }
    ensures held { OnOk result (IsHeldMarket (record (market_accounts_of market.now) { orders = [] })) }
{
    write_terms(text, market)?;
    write_bytes(text, &market.requests)?;
    write_bytes(text, &market.events)?;
    write_bytes(text, &market.bids)?;
    write_bytes(text, &market.asks)?;
    end_row(text)?;
    Ok(())
}

/// What stands in a market's row before its queues and its sides.
pub(crate) fn write_terms(text: &mut Vec<u8>, market: &MarketAccounts) -> Result<(), AllocError>
    ensures text { OnOk result (text.new.items ≡ text.old.items ++ terms_text (market_accounts_of market.now)) }
    ensures held { OnOk result (IsHeldMarket (terms_of (market_accounts_of market.now))) }
{
    write_word(text, "market")?;
    write_address(text, market.address)?;
    write_address(text, market.authority)?;
    write_bytes(text, &market.market)?;
    write_bytes(text, &market.coin_vault)?;
    write_bytes(text, &market.pc_vault)?;
    Ok(())
}

pub(crate) fn write_word(text: &mut Vec<u8>, word: &str) -> Result<(), AllocError>
    ensures { OnOk result (text.new.items ≡ text.old.items ++ word.now) }
{
    text.extend_from_slice(word.as_bytes())
}

/// A comma, and an address.
fn write_address(text: &mut Vec<u8>, address: Address) -> Result<(), AllocError>
    ensures text { OnOk result (text.new.items ≡ text.old.items ++ (44 ∷ address_text address)) }
    ensures held { OnOk result (IsAddress address) }
{
    write_word(text, ",")?;
    push_address(text, address)
}

/// An address: nearly all are labels.
#[tactic(auto, unfolding(dex_types::specs::Text::address_text))]
fn push_address(text: &mut Vec<u8>, address: Address) -> Result<(), AllocError>
    ensures { OnOk result (text.new.items ≡ text.old.items ++ address_text address) }
{
    match address.label() {
        Some(label) => text.extend_from_slice(label),
        None => text.extend_from_slice(&address.prefixed_digits()),
    }
}

/// A comma, and the bytes of an account.
pub(crate) fn write_bytes(text: &mut Vec<u8>, bytes: &[u8]) -> Result<(), AllocError>
    ensures text { OnOk result (text.new.items ≡ text.old.items ++ (44 ∷ base64_text bytes.now)) }
    ensures held { OnOk result (IsBytes bytes.now) }
{
    write_word(text, ",")?;
    write_base64(text, bytes)
}

/// Bytes in base64, piece by piece.
#[tactic(auto, unfolding(crate::specs::DumpText::base64_text))]
pub(crate) fn write_base64(text: &mut Vec<u8>, bytes: &[u8]) -> Result<(), AllocError>
    ensures text { OnOk result (text.new.items ≡ text.old.items ++ base64_text bytes.now) }
    ensures held { OnOk result (IsBytes bytes.now) }
{
    let mut symbols = [0; 1024];
    'pieces: for piece in bytes.chunks(768) {
        write_piece(text, &mut symbols, piece)?;
    }
    Ok(())
}

/// Bytes in base64: what they give stands in this array first. A whole piece of zeros, as most of a market's accounts
/// are at first, gives `A` alone.
#[tactic(auto, unfolding(crate::specs::DumpText::base64_text))]
fn write_piece(text: &mut Vec<u8>, symbols: &mut [u8; 1024], piece: &[u8]) -> Result<(), AllocError>
    requires { length piece.now ≤ 768 }
    ensures { OnOk result (text.new.items ≡ text.old.items ++ base64_text piece.now) }
{
    if piece.len() == 768 && is_blank(piece) {
        return write_zeros(text);
    }
    match STANDARD.encode_slice(piece, symbols) {
        Ok(length) => text.extend_from_slice(&symbols[..length]),
        // A piece gives at most as many symbols as there is room for.
        Err(_) => unreachable!(),
    }
}

/// A whole piece of zeros in base64.
fn write_zeros(text: &mut Vec<u8>) -> Result<(), AllocError>
    ensures { OnOk result (text.new.items ≡ text.old.items ++ replicate 1024 65) }
{
    text.extend_from_slice(&[b'A'; 1024])
}

pub(crate) fn end_row(text: &mut Vec<u8>) -> Result<(), AllocError>
    ensures { OnOk result (text.new.items ≡ text.old.items ++ (10 ∷ [])) }
{
    write_word(text, "\n")
}
