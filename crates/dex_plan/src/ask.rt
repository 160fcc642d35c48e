//! What is asked of a market.

ghost use Rattle.std.specs.Prelude.{◌≡◌};
ghost use Rattle.dex_types.specs.Rows.{row_of};
ghost use Rattle.dex_history.specs.Journal.{request_of};
ghost use Rattle.dex_plan.specs.Given.{asked_by};

use dex_types::{Address, Row};

/// What is asked of a market: the instruction's data, who signs, the open-orders accounts that are named, and the clock
/// at which it runs.
#[derive(Clone, Copy, Debug)]
pub struct Ask<'a> {
    pub signer: Address,
    pub named: &'a [Address],
    pub data: &'a [u8],
    pub clock: i64,
}

/// What a row asks.
#[inline]
pub fn ask_of(row: &Row) -> Ask<'_>
    ensures { asked_by result ≡ request_of (row_of row.entry.now) }
{
    Ask {
        signer: row.signer,
        named: &row.named,
        data: &row.bytes,
        clock: row.now,
    }
}
