//! A block acts: its rows one after the other, as a replay of them, and each is answered by its entry.

ghost use Rattle.std.specs.Prelude.{◌≡◌, ◌==◌, ◌++◌, [], IfOk, OnOk, map};
ghost use Rattle.std.specs.List.{position};
ghost use Rattle.dex_types.specs.declared.movements.Entry.{Entry as EntryOf};
ghost use Rattle.dex_types.specs.Addresses.{is_same};
ghost use Rattle.dex_types.specs.Rows.{row_of};
ghost use Rattle.dex_state.specs.declared.outcome.MarketJournal.{MarketJournal as MarketJournalOf};
ghost use Rattle.dex_state.specs.Outcomes.{market_journal_of};
ghost use Rattle.dex_desk.specs.Replies.{ActedIn, answer_to, answers_to};

use crate::block::{Behind, Block};
use dex_replay::replay_with_rows;
use dex_report::{LINE, write_entry};
use dex_state::MarketJournal;
use dex_types::{Address, Entry, NoMemory, Row, is_same};
use std::alloc::{AllocError, Global};

/// Lets the rows of a block act, and writes what each is answered. What is left is a block without rows, of the
/// accounts that they leave.
pub fn act(
    alloc: Global,
    block: Block,
    text: &mut Vec<u8>,
    line: &mut [u8; LINE],
) -> Result<Block, NoMemory>
    ensures acted { IfOk result (λ left. ActedIn block left text.old.items text.new.items) }
    ensures quiet { IfOk result (λ left. left.draft.script.rows ≡ []) }
{
    if block.len() == 0 {
        return Ok(block);
    }
    let (script, behind) = block.into_script(alloc)?;
    let (outcome, rows) = replay_with_rows(alloc, script)?;
    match write_answers(text, line, &outcome.markets, &rows) {
        Ok(()) => {}
        Err(_) => return Err(NoMemory),
    }
    let Behind {
        names,
        program,
        clock,
        number,
    } = behind;
    let accounts = outcome.accounts;
    Ok(Block::of(alloc, accounts, names, program, clock, number))
}

/// Writes what rows are answered.
fn write_answers(
    text: &mut Vec<u8>,
    line: &mut [u8; LINE],
    journals: &[MarketJournal],
    rows: &[Row],
) -> Result<(), AllocError>
    ensures { OnOk result (text.new.items
        ≡ text.old.items ++ answers_to (map market_journal_of journals.now) (map row_of rows.now)) }
{
    for row in rows {
        write_answer(text, line, journals, row)?;
    }
    Ok(())
}

/// Writes what a row is answered.
fn write_answer(
    text: &mut Vec<u8>,
    line: &mut [u8; LINE],
    journals: &[MarketJournal],
    row: &Row,
) -> Result<(), AllocError>
    ensures { OnOk result (text.new.items
        ≡ text.old.items ++ answer_to (map market_journal_of journals.now) (row_of row.entry.now)) }
{
    let Some(place) = place_of_journal(journals, row.market) else {
        return Ok(());
    };
    let journal = &journals[place];
    let Some(place) = place_of_entry(&journal.entries, row.number) else {
        return Ok(());
    };
    write_entry(text, line, &journal.entries[place])
}

/// Where the journal of a market stands, if it is here.
fn place_of_journal(journals: &[MarketJournal], market: Address) -> Option<usize>
    ensures { result ≡ position (λ (journal : MarketJournalOf). is_same market journal.address) journals.now }
{
    journals
        .iter()
        .position(|journal| is_same(market, journal.address))
}

/// Where the entry of the row of this number stands, if it is here.
fn place_of_entry(entries: &[Entry], number: u32) -> Option<usize>
    ensures { result ≡ position (λ (entry : EntryOf). entry.row == number) entries.now }
{
    entries.iter().position(|entry| entry.row == number)
}
