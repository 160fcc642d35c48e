//! Writing a dump of accounts that are given up: a market is let go when its rows are written, so that the bytes of all
//! markets and their texts are not there together. A text in pieces goes on where they stood.

ghost use Rattle.std.specs.Prelude.{◌≡◌, ◌≤◌, ◌∷◌, ◌++◌, IfOk, OnOk, length, map};
ghost use Rattle.std.specs.List.{All, flat_map};
ghost use Rattle.dex_types.specs.Accounts.{accounts_of, market_accounts_of};
ghost use Rattle.hex.specs.Hex.{IsBytes};
ghost use Rattle.dex_state.specs.Accepted.{AreAccepted};
ghost use Rattle.dex_types.specs.declared.limits.Limits.{Limits};
ghost use Rattle.dex_state.specs.Held.{HoldBytes, IsHeldMarket};
ghost use Rattle.dex_dump.specs.Answers.{IsReadAs};
ghost use Rattle.dex_dump.specs.DumpText.{base64_text, dump_text, lines_text, market_rows};
ghost use Rattle.dex_dump.specs.Pieces.{text_in};

use crate::checks::is_blank;
use crate::pieces::{Pieces, ZEROS};
use crate::writing::{
    end_row, room_of_dump, write_base64, write_bytes, write_front, write_market_rows, write_orders,
    write_terms, write_word,
};
use dex_types::{Accounts, MarketAccounts, NoMemory};
use std::alloc::{AllocError, Global};

/// An account of this many bytes or more is written block by block. A text goes on where it stood, if its last piece
/// has come to as many.
const LARGE: usize = 1_048_576;

/// The dump of all accounts, as `write_dump` has it.
pub fn into_dump(alloc: Global, accounts: Accounts) -> Result<Vec<u8>, NoMemory>
    ensures text { IfOk result (λ text. text.items ≡ dump_text (accounts_of accounts)) }
    ensures read_back { IfOk result (λ text.
        (limits : Limits) → AreAccepted limits (accounts_of accounts)
        → IsReadAs limits text.items (accounts_of accounts)) }
{
    let mut text = Vec::with_capacity(alloc, room_of_dump(&accounts))?;
    match append_taken(&mut text, accounts) {
        Ok(()) => Ok(text),
        Err(_) => Err(NoMemory),
    }
}

/// Writes the dump of all accounts after a text, as `append_dump` does.
pub fn append_taken(text: &mut Vec<u8>, accounts: Accounts) -> Result<(), AllocError>
    ensures text { OnOk result (text.new.items ≡ text.old.items ++ dump_text (accounts_of accounts)) }
    ensures held { OnOk result (HoldBytes (accounts_of accounts)) }
{
    write_front(text, &accounts)?;
    take_markets(text, accounts.markets)?;
    write_word(text, "enddump\n")?;
    Ok(())
}

fn take_markets(text: &mut Vec<u8>, markets: Vec<MarketAccounts>) -> Result<(), AllocError>
    ensures text { OnOk result (text.new.items
        ≡ text.old.items ++ lines_text (flat_map market_rows (map market_accounts_of markets.items))) }
    ensures held { OnOk result (All IsHeldMarket (map market_accounts_of markets.items)) }
{
    for market in markets {
        write_market_rows(text, &market)?;
    }
    Ok(())
}

/// Writes the dump of all accounts behind a text in pieces, as `append_dump` does behind one of a single piece.
pub fn take_accounts(text: &mut Pieces, accounts: Accounts) -> Result<(), AllocError>
    ensures text { OnOk result (text_in text.new ≡ text_in text.old ++ dump_text (accounts_of accounts)) }
    ensures held { OnOk result (HoldBytes (accounts_of accounts)) }
{
    write_front(&mut text.last, &accounts)?;
    take_each_market(text, accounts.markets)?;
    write_word(&mut text.last, "enddump\n")?;
    Ok(())
}

fn take_each_market(text: &mut Pieces, markets: Vec<MarketAccounts>) -> Result<(), AllocError>
    ensures text { OnOk result (text_in text.new
        ≡ text_in text.old ++ lines_text (flat_map market_rows (map market_accounts_of markets.items))) }
    ensures held { OnOk result (All IsHeldMarket (map market_accounts_of markets.items)) }
{
    for market in markets {
        take_market_rows(text, market)?;
    }
    Ok(())
}

/// The rows of a market, as `write_market_rows` has them. A large account is let go, or, where its text is large too,
/// given up for the text behind it: memory that is in use already need not be taken again.
pub fn take_market_rows(text: &mut Pieces, market: MarketAccounts) -> Result<(), AllocError>
    ensures text { OnOk result (text_in text.new
        ≡ text_in text.old ++ lines_text (market_rows (market_accounts_of market))) }
    ensures held { OnOk result (IsHeldMarket (market_accounts_of market)) }
{
    write_terms(&mut text.last, &market)?;
    take_bytes(text, market.requests)?;
    take_bytes(text, market.events)?;
    take_bytes(text, market.bids)?;
    take_bytes(text, market.asks)?;
    end_row(&mut text.last)?;
    write_orders(&mut text.last, market.address, &market.orders)?;
    Ok(())
}

/// A comma, and the bytes of an account.
fn take_bytes(text: &mut Pieces, bytes: Vec<u8>) -> Result<(), AllocError>
    ensures text { OnOk result (text_in text.new ≡ text_in text.old ++ (44 ∷ base64_text bytes.items)) }
    ensures held { OnOk result (IsBytes bytes.items) }
{
    if bytes.len() < LARGE {
        return write_bytes(&mut text.last, &bytes);
    }
    write_word(&mut text.last, ",")?;
    write_blocks(text, &bytes)?;
    if text.last.len() < LARGE {
        return Ok(());
    }
    text.go_on_in(bytes)
}

/// The bytes of an account, block by block. Of a block of zeros nothing is written: it is a piece of its own.
#[tactic(auto, unfolding(crate::specs::DumpText::base64_text))]
fn write_blocks(text: &mut Pieces, bytes: &[u8]) -> Result<(), AllocError>
    ensures text { OnOk result (text_in text.new ≡ text_in text.old ++ base64_text bytes.now) }
    ensures held { OnOk result (IsBytes bytes.now) }
{
    'pieces: for block in bytes.chunks(ZEROS) {
        write_block(text, block)?;
    }
    Ok(())
}

fn write_block(text: &mut Pieces, block: &[u8]) -> Result<(), AllocError>
    requires { length block.now ≤ 49152 }
    ensures { OnOk result (text_in text.new ≡ text_in text.old ++ base64_text block.now) }
{
    if block.len() == ZEROS && is_blank(block) {
        return text.push_zeros();
    }
    write_base64(&mut text.last, block)
}
