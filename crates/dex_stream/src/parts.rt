//! The parts of a text: its first, and each that is behind others.

ghost use Rattle.std.specs.Prelude.{◌≡◌, ◌+◌, ◌≤◌, ◌++◌, ℕ, IfErr, IfOk, IfSome, List, [], false, true};
ghost use Rattle.dex_types.specs.Limits.{AreLimits};
ghost use Rattle.dex_rows.specs.Records.{Fields as FieldsOf};
ghost use Rattle.dex_script.specs.Pieces.{beside};
ghost use Rattle.dex_script.specs.Telling.{TellsError};
ghost use Rattle.dex_stream.specs.Parts.{HasActedNext, IsBetween, IsFirst};

use crate::sizes::PART;
use dex_replay::laws::{a_replay_is_in_one_order, what_one_order_leaves_is_a_run};
use dex_replay::replay_with_rows;
use dex_rows::plain::PlainRows;
use dex_rows::records::{Fields, Rows};
use dex_script::{Begun, Reader, Script, ScriptError, begin_script, read_rows};
use dex_state::{MarketJournal, WalletJournal};
use dex_types::{Accounts, Limits, NoMemory, Row};
use std::alloc::Global;

/// The first part of a text, as a script, and what is behind it, if anything is.
#[derive(Drop)]
pub(crate) struct First<'a> {
    pub script: Script,
    pub behind: Option<Behind<'a>>,
}

/// What is behind the first part: these rows, from this number on, and a reader for them.
#[derive(Drop)]
pub(crate) struct Behind<'a> {
    pub reader: Reader,
    pub number: u32,
    pub rows: PlainRows<'a>,
}

/// A script so far, whose items have acted: the accounts, how many items there were, and a reader for the rows from
/// this number on.
#[derive(Drop)]
pub(crate) struct Playing {
    pub accounts: Accounts,
    pub items: u32,
    pub reader: Reader,
    pub number: u32,
}

/// One more part, when its items have acted: its rows, what they left in the journals, and the script so far.
#[derive(Drop)]
pub(crate) struct Acted {
    pub rows: Vec<Row>,
    pub markets: Vec<MarketJournal>,
    pub wallets: Vec<WalletJournal>,
    pub next: Playing,
}

/// Reads the first part of a text; or nothing, where behind the first instruction row there is a quote, or a row of
/// this part is faulty.
pub(crate) fn first_part<'a>(
    alloc: Global,
    bytes: &'a [u8],
    limits: &Limits,
) -> Result<Option<First<'a>>, ScriptError>
    requires { AreLimits limits.now }
    ensures first { IfOk result (λ found. IfSome found (λ first. IsFirst limits.now bytes.now first)) }
    ensures refused { IfErr result (λ error. TellsError limits.now error false bytes.now) }
{
    let Begun {
        reader,
        mut number,
        rows,
    } = begin_script(alloc, bytes, false, limits)?;
    let Some(all) = rows else {
        let script = reader.into_script(alloc)?;
        return Ok(Some(First {
            script,
            behind: None,
        }));
    };
    let Some(mut part) = all.plain() else {
        return Ok(None);
    };
    let left = part.cut(PART);
    let Ok(read) = read_rows(
        alloc,
        reader,
        &mut number,
        &mut Rows::of_plain(&part),
        &mut Vec::new(alloc),
    ) else {
        return Ok(None);
    };
    let reader = reader_behind(alloc, &read)?;
    let script = read.into_script(alloc)?;
    Ok(Some(First {
        script,
        behind: Some(Behind {
            reader,
            number,
            rows: left,
        }),
    }))
}

/// A reader for the rows after those that were read.
fn reader_behind(alloc: Global, read: &Reader) -> Result<Reader, NoMemory>
    ensures { IfOk result (λ next. next ≡ beside read.now read.now.clock) }
{
    let next = read.beside(alloc, read.clock())?;
    Ok(next)
}

/// Whether no rows are left.
pub(crate) fn is_over(rows: &PlainRows<'_>) -> Result<bool, NoMemory>
    ensures { IfOk result (λ over. over ≡ true → rows.now ≡ []) }
{
    let found = Rows::of_plain(rows).next_row(&mut Fields::new())?;
    Ok(!found)
}

/// Reads one more part, and lets its items act; or gives nothing, where a row is faulty, or rows are too many. Its rows
/// take their buffers from spare ones.
pub(crate) fn act_part(
    alloc: Global,
    before: Playing,
    rows: &PlainRows<'_>,
    limits: &Limits,
    spare: &mut Vec<Row>,
) -> Result<Option<Acted>, NoMemory>
    requires { (text : List ℕ) × (left : List FieldsOf) × IsBetween limits.now text before (rows.now ++ left) }
    ensures { (text : List ℕ) (left : List FieldsOf)
        (between : IsBetween limits.now text before (rows.now ++ left)) → IfOk result (λ found. IfSome found (λ acted.
        HasActedNext limits.now text before (rows.now ++ left) between acted left)) }
{
    a_replay_is_in_one_order();
    what_one_order_leaves_is_a_run();
    let Playing {
        accounts,
        items,
        reader,
        mut number,
    } = before;
    let Ok(read) = read_rows(alloc, reader, &mut number, &mut Rows::of_plain(rows), spare) else {
        return Ok(None);
    };
    let Some(items) = items_with(items, &read, limits) else {
        return Ok(None);
    };
    let (script, reader) = read.into_part(alloc, accounts)?;
    let (outcome, rows) = replay_with_rows(alloc, script)?;
    Ok(Some(Acted {
        rows,
        markets: outcome.markets,
        wallets: outcome.wallets,
        next: Playing {
            accounts: outcome.accounts,
            items,
            reader,
            number,
        },
    }))
}

/// How many items there are with those that were read, if they are not too many.
fn items_with(items: u32, read: &Reader, limits: &Limits) -> Option<u32>
    ensures { IfSome result (λ both. (both ≡ items + read.now.items) × (both ≤ limits.now.items)) }
{
    match items.checked_add(read.items()) {
        Some(both) if both <= limits.items => Some(both),
        _ => None,
    }
}
