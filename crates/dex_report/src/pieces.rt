//! The pieces of a report.

ghost use Rattle.std.specs.Prelude.{◌≡◌, ◌++◌, IfOk, OnOk, map};
ghost use Rattle.std.specs.List.{All, flat_map};
ghost use Rattle.dex_dump.specs.Pieces.{piece_text};
ghost use Rattle.dex_state.specs.Outcomes.{outcome_of};
ghost use Rattle.dex_report.specs.Report.{report_text};
ghost use Rattle.dex_report.specs.Telling.{FitOutcome};
ghost use Rattle.dex_report.specs.Parts.{FitPart, part_lines};
ghost use Rattle.dex_report.specs.declared.part.Part.TheVariants as part;

use crate::lines::write_head;
use crate::part::Part;
use crate::writing::texts_of;
use dex_dump::{Piece, write_front};
use dex_state::{MarketJournal, Outcome};
use dex_types::{MarketAccounts, NoMemory, Row};
use std::alloc::{AllocError, Global};
use std::marker::Sync;
use std::thread::Threads;

/// The report of an outcome of this many rows, in pieces that follow each other, written on threads of their own: each
/// market's journal, the journals of all wallets and each market's accounts, small ones together. The outcome is given
/// up: each journal and each market's accounts are let go when they are written, so that they and their lines are not
/// there together, and beside them what is spent: pieces of rows, of which nothing is told. Of zeros of large accounts
/// nothing is in memory. All values that it tells fit: addresses 32 bytes, amounts of movements 64 bits, and numbers of
/// replies 128.
pub fn report_pieces<R: Threads + Sync>(
    rt: &R,
    alloc: Global,
    outcome: Outcome,
    rows: u32,
    spent: Vec<Vec<Row>>,
) -> Result<Vec<Piece>, NoMemory>
    ensures fits { IfOk result (λ pieces. FitOutcome (outcome_of outcome)) }
    ensures text { IfOk result (λ pieces.
        flat_map piece_text pieces.items ≡ report_text (outcome_of outcome) rows) }
{
    match pieces_by_threads(rt, alloc, outcome, rows, spent) {
        Ok(pieces) => Ok(pieces),
        Err(_) => Err(NoMemory),
    }
}

fn pieces_by_threads<R: Threads + Sync>(
    rt: &R,
    alloc: Global,
    outcome: Outcome,
    rows: u32,
    spent: Vec<Vec<Row>>,
) -> Result<Vec<Piece>, AllocError>
    ensures fits { IfOk result (λ pieces. FitOutcome (outcome_of outcome)) }
    ensures text { IfOk result (λ pieces.
        flat_map piece_text pieces.items ≡ report_text (outcome_of outcome) rows) }
{
    let parts = parts_of(alloc, outcome, rows, spent)?;
    texts_of(rt, alloc, parts)
}

/// The parts of a report, in their order, after what is spent.
fn parts_of(
    alloc: Global,
    outcome: Outcome,
    rows: u32,
    spent: Vec<Vec<Row>>,
) -> Result<Vec<Part>, AllocError>
    ensures fits { IfOk result (λ parts. All FitPart parts.items → FitOutcome (outcome_of outcome)) }
    ensures text { IfOk result (λ parts.
        flat_map part_lines parts.items ≡ report_text (outcome_of outcome) rows) }
{
    let Outcome {
        accounts,
        markets,
        wallets,
    } = outcome;
    let mut head = Vec::new(alloc);
    write_head(&mut head, b"report", None, rows as u64)?;
    let mut front = Vec::new(alloc);
    write_front(&mut front, &accounts)?;
    let mut end = Vec::new(alloc);
    end.extend_from_slice(b"enddump\nend\n")?;
    let mut parts = Vec::new(alloc);
    add_spent(&mut parts, spent)?;
    parts.push(Part::Text(head))?;
    add_markets(&mut parts, markets)?;
    parts.push(Part::Wallets(wallets))?;
    parts.push(Part::Text(front))?;
    add_rows(&mut parts, accounts.markets)?;
    parts.push(Part::Text(end))?;
    Ok(parts)
}

fn add_spent(parts: &mut Vec<Part>, spent: Vec<Vec<Row>>) -> Result<(), AllocError>
    ensures { OnOk result (parts.new.items ≡ parts.old.items ++ map part.Spent spent.items) }
{
    for rows in spent {
        parts.push(Part::Spent(rows))?;
    }
    Ok(())
}

fn add_markets(parts: &mut Vec<Part>, journals: Vec<MarketJournal>) -> Result<(), AllocError>
    ensures { OnOk result (parts.new.items ≡ parts.old.items ++ map part.Market journals.items) }
{
    for journal in journals {
        parts.push(Part::Market(journal))?;
    }
    Ok(())
}

fn add_rows(parts: &mut Vec<Part>, markets: Vec<MarketAccounts>) -> Result<(), AllocError>
    ensures { OnOk result (parts.new.items ≡ parts.old.items ++ map part.Rows markets.items) }
{
    for market in markets {
        parts.push(Part::Rows(market))?;
    }
    Ok(())
}
