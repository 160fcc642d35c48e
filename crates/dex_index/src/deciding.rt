//! Whether a row is refused, and what it is to do else, with an index of the market's open-orders accounts.

ghost use Rattle.std.specs.Prelude.{◌≡◌};
ghost use Rattle.dex_types.specs.Accounts.{market_accounts_of};
ghost use Rattle.dex_types.specs.Rows.{row_of};
ghost use Rattle.dex_ring.specs.PendingFills.{pending_fills_of};
ghost use Rattle.dex_accounts.specs.Decoded.{AreSound};
ghost use Rattle.dex_history.specs.Journal.{Sees, asked_of, request_of};
ghost use Rattle.dex_plan.specs.Given.{market_of};
ghost use Rattle.dex_plan.specs.Plans as planning;
ghost use Rattle.dex_index.specs.Reached.{IsIndexOf};

use crate::index::AccountIndex;
use crate::indexed_market::IndexedMarket;
use dex_decide::decide_ask;
use dex_fills::PendingFills;
use dex_plan::{Plan, ask_of};
use dex_types::{MarketAccounts, Refusal, Row, Seen};

/// What `decide` of `dex_decide` answers, on accounts with an index of the open-orders accounts among them.
pub fn decide(
    accounts: &MarketAccounts,
    index: &AccountIndex,
    row: &Row,
    seen: &Seen,
    pending: &PendingFills,
) -> Result<Plan, Refusal>
    requires sound { AreSound (market_accounts_of accounts.now) }
    requires indexed { IsIndexOf index.now (market_accounts_of accounts.now).orders }
    requires sees { Sees (asked_of (row_of row.now)) seen.now }
    requires pending { pending.now ≡ pending_fills_of (market_of accounts.now).events }
    ensures { result ≡ planning.decided (request_of (row_of row.entry.now)) seen.now (market_of accounts.now) }
{
    let mut answer = Err(Refusal::NoAccount);
    decide_into(accounts, index, row, seen, pending, &mut answer);
    answer
}

/// What `decide` answers, written where it is wanted: hence one parameter more than six.
pub fn decide_into(
    accounts: &MarketAccounts,
    index: &AccountIndex,
    row: &Row,
    seen: &Seen,
    pending: &PendingFills,
    answer: &mut Result<Plan, Refusal>,
)
    requires sound { AreSound (market_accounts_of accounts.now) }
    requires indexed { IsIndexOf index.now (market_accounts_of accounts.now).orders }
    requires sees { Sees (asked_of (row_of row.now)) seen.now }
    requires pending { pending.now ≡ pending_fills_of (market_of accounts.now).events }
    ensures { answer.new ≡ planning.decided (request_of (row_of row.entry.now)) seen.now (market_of accounts.now) }
{
    let market = IndexedMarket { accounts, index };
    decide_ask(&market, &ask_of(row), seen, pending, answer);
}
