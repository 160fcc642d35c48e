//! A table of worth as text.

ghost use Rattle.std.specs.Prelude.{◌≡◌, ◌++◌, Some, map, IfOk, OnOk};
ghost use Rattle.std.specs.List.{flat_map};
ghost use Rattle.std.specs.String.{string_bytes};
ghost use Rattle.dex_replay.specs.WorthText as lines;
ghost use Rattle.dex_worth.specs.Rows.{line_of, plain_row};

use crate::WorthRow;
use std::alloc::{AllocError, Global};
use std::fmt;
use std::fmt::Write;

/// The line of an account: `trader MARKET ACCOUNT COIN PC`, with `-` before what is less than nothing.
#[derive(Clone, Copy)]
struct TraderLine(WorthRow);

impl fmt::Display for TraderLine {
    ghost output = { λ l. Some (lines.trader_line (plain_row l.0)) };

    fn fmt<W: fmt::Write>(&self, f: &mut fmt::Formatter<W>) -> fmt::Result {
        let WorthRow {
            market,
            account,
            worth,
        } = self.0;
        let coin = worth.coin;
        let pc = worth.pc;
        write!(f, "trader {market} {account} {coin} {pc}\n")
    }
}

fn write_traders(text: &mut String, table: &[WorthRow]) -> Result<(), AllocError>
    ensures { OnOk result (string_bytes text.new ≡ string_bytes text.old ++ flat_map line_of table.now) }
{
    'traders: for row in table {
        write!(text, "{}", TraderLine(*row))?;
    }
    Ok(())
}

/// The lines of a table of this many markets.
fn lines_of(alloc: Global, markets: usize, table: &[WorthRow]) -> Result<String, AllocError>
    ensures { IfOk result (λ text. string_bytes text ≡ lines.with_lines markets (flat_map line_of table.now)) }
{
    let mut text = String::new(alloc);
    write!(text, "worth {markets}\n")?;
    write_traders(&mut text, table)?;
    write!(text, "end\n")?;
    Ok(text)
}

/// The text of a table of this many markets: `worth MARKETS`, a line for each account, and `end`. It answers otherwise
/// only for lack of memory.
pub fn worth_text(alloc: Global, markets: usize, table: &[WorthRow]) -> Result<String, AllocError>
    ensures { IfOk result (λ text. string_bytes text ≡ lines.worth_text markets (map plain_row table.now)) }
{
    lines_of(alloc, markets, table)
}
