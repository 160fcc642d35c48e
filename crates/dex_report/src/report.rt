//! The report of an outcome that is kept, in one buffer.

ghost use Rattle.std.specs.Prelude.{◌≡◌, IfOk};
ghost use Rattle.dex_state.specs.Outcomes.{outcome_of};
ghost use Rattle.dex_report.specs.Report as texts;
ghost use Rattle.dex_report.specs.Telling.{FitOutcome};

use crate::lines::{LINE, write_head};
use crate::told::write_each;
use dex_dump::{append_dump, room_of_dump};
use dex_state::Outcome;
use dex_types::NoMemory;
use std::alloc::{AllocError, Global};

/// The report of an outcome of this many rows, in one buffer: the number of rows, each market's journal, each wallet's,
/// the dump of the last accounts, and the end. All values that it tells fit: addresses 32 bytes, amounts of movements
/// 64 bits, and numbers of replies 128.
pub fn report_text(alloc: Global, outcome: &Outcome, rows: u32) -> Result<Vec<u8>, NoMemory>
    ensures fits { IfOk result (λ text. FitOutcome (outcome_of outcome.now)) }
    ensures text { IfOk result (λ text. text.items ≡ texts.report_text (outcome_of outcome.now) rows) }
{
    match report(alloc, outcome, rows) {
        Ok(text) => Ok(text),
        Err(_) => Err(NoMemory),
    }
}

fn report(alloc: Global, outcome: &Outcome, rows: u32) -> Result<Vec<u8>, AllocError>
    ensures fits { IfOk result (λ text. FitOutcome (outcome_of outcome.now)) }
    ensures text { IfOk result (λ text. text.items ≡ texts.report_text (outcome_of outcome.now) rows) }
{
    let mut text = Vec::with_capacity(alloc, room_of(outcome))?;
    let mut line = [0; LINE];
    write_head(&mut text, b"report", None, rows as u64)?;
    write_each(&mut text, &mut line, &outcome.markets)?;
    write_each(&mut text, &mut line, &outcome.wallets)?;
    append_dump(&mut text, &outcome.accounts)?;
    text.extend_from_slice(b"end\n")?;
    Ok(text)
}

/// Room for nearly every report: what most lines of journals take, and the dump.
fn room_of(outcome: &Outcome) -> usize {
    let mut room = room_of_dump(&outcome.accounts);
    'markets: for journal in &outcome.markets {
        room = room.saturating_add(journal.entries.len().saturating_mul(96));
    }
    'wallets: for journal in &outcome.wallets {
        room = room
            .saturating_add(journal.entries.len().saturating_mul(48))
            .saturating_add(192);
    }
    room
}
