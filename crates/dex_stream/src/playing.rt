//! A script, from its bytes, played part by part.

ghost use Rattle.std.specs.Prelude.{◌≡◌, ℕ, IfErr, IfOk, IfSome, List, false};
ghost use Rattle.dex_types.specs.Limits.{AreLimits};
ghost use Rattle.dex_script_types.specs.PlainScript.{PlainScript};
ghost use Rattle.dex_script.specs.Telling.{TellsError};
ghost use Rattle.dex_stream.specs.Heard.{HasPlayed, IsHeard};
ghost use Rattle.dex_stream.specs.Parts.{IsBehind};

use crate::listener::Listener;
use crate::parts::{Acted, Behind, First, Playing, act_part, first_part, is_over};
use crate::sizes::size_of_part;
use dex_replay::replay_with_rows;
use dex_script::{Script, ScriptError, read_script_within};
use dex_types::{Accounts, Limits, NoMemory};
use std::alloc::Global;

/// What is left of a script when all its items have acted: who has heard them, the accounts, and how many items there
/// were (neighbours of one number are one item).
#[derive(Drop)]
pub struct Played<L: Drop> {
    pub listener: L,
    pub accounts: Accounts,
    pub items: u32,
}

/// Reads the script that these bytes are within these limits, and lets its items act in their order, each as soon as
/// the rows beside it are read; or says why the bytes are no script, as `read_script_within` of `dex_script` does. Then
/// rows may have acted: nobody sees what they left.
pub fn play<L: Listener>(
    alloc: Global,
    bytes: &[u8],
    limits: &Limits,
) -> Result<Played<L>, ScriptError>
    requires { AreLimits limits.now }
    ensures played { IfOk result (λ played. IsHeard L.heard limits.now bytes.now played) }
    ensures refused { IfErr result (λ error. TellsError limits.now error false bytes.now) }
{
    match play_in_parts(alloc, bytes, limits)? {
        Some(played) => Ok(played),
        None => play_whole(alloc, bytes, limits),
    }
}

/// Like `play`, with all rows as one part.
fn play_whole<L: Listener>(
    alloc: Global,
    bytes: &[u8],
    limits: &Limits,
) -> Result<Played<L>, ScriptError>
    requires { AreLimits limits.now }
    ensures played { IfOk result (λ played. IsHeard L.heard limits.now bytes.now played) }
    ensures refused { IfErr result (λ error. TellsError limits.now error false bytes.now) }
{
    let script = read_script_within(alloc, bytes, false, limits)?;
    let played = play_script(alloc, script)?;
    Ok(played)
}

/// Lets the items of a script act, as its first part or as a whole.
fn play_script<L: Listener>(alloc: Global, script: Script) -> Result<Played<L>, NoMemory>
    ensures { IfOk result (λ played. HasPlayed L.heard script played) }
{
    let mut listener = L::begin(alloc, &script.start)?;
    let items = script.items();
    let (outcome, rows) = replay_with_rows(alloc, script)?;
    listener.hear(alloc, &rows, outcome.markets, outcome.wallets)?;
    Ok(Played {
        listener,
        accounts: outcome.accounts,
        items,
    })
}

/// Like `play`, part by part; or nothing, where behind the first instruction row there is a quote, a faulty row, or too
/// many rows.
fn play_in_parts<L: Listener>(
    alloc: Global,
    bytes: &[u8],
    limits: &Limits,
) -> Result<Option<Played<L>>, ScriptError>
    requires { AreLimits limits.now }
    ensures played { IfOk result (λ found. IfSome found (λ played. IsHeard L.heard limits.now bytes.now played)) }
    ensures refused { IfErr result (λ error. TellsError limits.now error false bytes.now) }
{
    let Some(first) = first_part(alloc, bytes, limits)? else {
        return Ok(None);
    };
    let First { script, behind } = first;
    let played = play_script(alloc, script)?;
    let Some(behind) = behind else {
        return Ok(Some(played));
    };
    let played = play_rest(alloc, played, behind, limits)?;
    Ok(played)
}

/// What is left when all parts behind the first have acted.
fn play_rest<L: Listener>(
    alloc: Global,
    first: Played<L>,
    behind: Behind<'_>,
    limits: &Limits,
) -> Result<Option<Played<L>>, NoMemory>
    requires { (text : List ℕ) × (script : PlainScript) × HasPlayed L.heard script first
        × IsBehind limits.now text script behind }
    ensures { (text : List ℕ) (script : PlainScript) → HasPlayed L.heard script first
        → IsBehind limits.now text script behind.entry
        → IfOk result (λ found. IfSome found (λ played. IsHeard L.heard limits.now text played)) }
{
    let mut listener = first.listener;
    let mut playing = Playing {
        accounts: first.accounts,
        items: first.items,
        reader: behind.reader,
        number: behind.number,
    };
    let mut left = behind.rows;
    let mut spare = Vec::new(alloc);
    'parts: for _ in 0..u64::MAX {
        if is_over(&left)? {
            return Ok(Some(Played {
                listener,
                accounts: playing.accounts,
                items: playing.items,
            }));
        }
        let mut part = left;
        left = part.cut(size_of_part(&playing.accounts));
        let Some(acted) = act_part(alloc, playing, &part, limits, &mut spare)? else {
            return Ok(None);
        };
        let Acted {
            rows,
            markets,
            wallets,
            next,
        } = acted;
        listener.hear(alloc, &rows, markets, wallets)?;
        playing = next;
        spare = rows;
    }
    Ok(None)
}
