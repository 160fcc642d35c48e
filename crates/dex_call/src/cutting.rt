//! Where a script may be cut, as texts.

ghost use Rattle.std.specs.Prelude.{◌≡◌, ◌<◌, ◌++◌, IfOk, OnOk};
ghost use Rattle.std.specs.List.{flat_map};
ghost use Rattle.std.specs.String.{string_bytes};
ghost use Rattle.dex_types.specs.Limits.{AreLimits};
ghost use Rattle.dex_answers.specs.Told.{text_of};
ghost use Rattle.dex_call.specs.PartsTexts as texts;

use dex_answers::{Status, StatusText, no_script};
use dex_parts::{Shards, chained, shards_of};
use dex_script::read_script_within;
use dex_types::{Limits, NoMemory};
use std::alloc::{AllocError, Global};
use std::fmt::Write;

fn write_markets(text: &mut String, shards: &[u32]) -> Result<(), AllocError>
    ensures { OnOk result (string_bytes text.new ≡ string_bytes text.old ++ flat_map texts.market_line shards.now) }
{
    'markets: for shard in shards {
        let number = *shard;
        write!(text, "market {number}\n")?;
    }
    Ok(())
}

fn write_wallets(text: &mut String, shards: &[u32]) -> Result<(), AllocError>
    ensures { OnOk result (string_bytes text.new ≡ string_bytes text.old ++ flat_map texts.wallet_line shards.now) }
{
    'wallets: for shard in shards {
        let number = *shard;
        write!(text, "wallet {number}\n")?;
    }
    Ok(())
}

fn write_rows(text: &mut String, shards: &[u32]) -> Result<(), AllocError>
    ensures { OnOk result (string_bytes text.new ≡ string_bytes text.old ++ flat_map texts.row_line shards.now) }
{
    'rows: for shard in shards {
        let number = *shard;
        write!(text, "row {number}\n")?;
    }
    Ok(())
}

fn write_parts(text: &mut String, counts: &[usize]) -> Result<(), AllocError>
    ensures { OnOk result (string_bytes text.new ≡ string_bytes text.old ++ flat_map texts.part_line counts.now) }
{
    'parts: for count in counts {
        let number = *count;
        write!(text, "part {number}\n")?;
    }
    Ok(())
}

/// The lines of shards: `market SHARD` for each market and `wallet SHARD` for each wallet, in declared order,
/// `row SHARD` for each row, in its order, and `end`.
fn shards_text(alloc: Global, shards: &Shards) -> Result<String, AllocError>
    ensures { IfOk result (λ text. string_bytes text
        ≡ texts.shards_text shards.now.markets.items shards.now.wallets.items shards.now.rows.items) }
{
    let mut text = String::new(alloc);
    write_markets(&mut text, &shards.markets)?;
    write_wallets(&mut text, &shards.wallets)?;
    write_rows(&mut text, &shards.rows)?;
    write!(text, "end\n")?;
    Ok(text)
}

/// The lines of the parts of a chain: `part COUNT` for each, and `end`.
fn parts_text(alloc: Global, counts: &[usize]) -> Result<String, AllocError>
    ensures { IfOk result (λ text. string_bytes text ≡ texts.parts_text counts.now) }
{
    let mut text = String::new(alloc);
    write_parts(&mut text, counts)?;
    write!(text, "end\n")?;
    Ok(text)
}

/// The shards of a script, or why the bytes are none within these limits.
pub(crate) fn shards_answer(
    alloc: Global,
    bytes: &[u8],
    limits: &Limits,
) -> Result<StatusText, NoMemory>
    requires { AreLimits limits.now }
    ensures { IfOk result (λ told. texts.SaysShards limits.now bytes.now told.status (text_of told)) }
{
    match read_script_within(alloc, bytes, false, limits) {
        Ok(script) => {
            let shards = shards_of(alloc, &script)?;
            let text = shards_text(alloc, &shards)?;
            StatusText::of(alloc, Status::Ok, text.into_bytes())
        }
        Err(error) => no_script(alloc, error),
    }
}

/// The parts of a chain, of at most so many rows each, or why the bytes are no script within these limits.
pub(crate) fn parts_answer(
    alloc: Global,
    bytes: &[u8],
    most: usize,
    limits: &Limits,
) -> Result<StatusText, NoMemory>
    requires some { 0 < most }
    requires limits { AreLimits limits.now }
    ensures { IfOk result (λ told. texts.SaysParts limits.now most bytes.now told.status (text_of told)) }
{
    match read_script_within(alloc, bytes, false, limits) {
        Ok(script) => {
            let counts = chained(alloc, &script, most)?;
            let text = parts_text(alloc, &counts)?;
            StatusText::of(alloc, Status::Ok, text.into_bytes())
        }
        Err(error) => no_script(alloc, error),
    }
}
