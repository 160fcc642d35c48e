//! The worth of every account of every market.

ghost use Rattle.std.specs.Prelude.{◌≡◌, ℕ, pos, ◌+ℤ◌, ◌-ℤ◌, ◌<◌, ◌≤◌, ◌^◌, ◌++◌, List, length, map, OnOk, IfOk};
ghost use Rattle.std.specs.List.{All, AllPairs};
ghost use Rattle.dex_types.specs.declared.account_bytes.MarketAccounts.{MarketAccounts as MarketAccountsOf};
ghost use Rattle.dex_types.specs.declared.addresses.Address.{Address as AddressOf};
ghost use Rattle.dex_types.specs.Accounts.{market_accounts_of};
ghost use Rattle.dex_types.specs.Rows.{PlainRow, row_of};
ghost use Rattle.dex_accounts.specs.Accepted.{IsAccepted};
ghost use Rattle.dex_history.specs.Journal.{Call};
ghost use Rattle.dex_replay.specs.Lawful.{IsLawful};
ghost use Rattle.dex_replay.specs.WorthTold.{rows_told, table_told};
ghost use Rattle.dex_state.specs.Outcomes.{PlainMarketJournal, PlainOutcome, outcome_of};
ghost use Rattle.dex_script_types.specs.PlainScript.{PlainScript};
ghost use Rattle.dex_script_types.specs.Facts.{IsScript};
ghost use Rattle.dex_totals.specs.Sums.{capped};
ghost use Rattle.dex_worth.specs.declared.amounts.TokenAmounts.{TokenAmounts as AmountsOf};
ghost use Rattle.dex_worth.specs.declared.entries.Moved.{Moved as MovedOf};
ghost use Rattle.dex_worth.specs.Amounts.{capped_amounts};
ghost use Rattle.dex_worth.specs.Amounts as tally;
ghost use Rattle.dex_worth.specs.Entries.{all_in, all_out, moved_told};
ghost use Rattle.dex_worth.specs.Ledgers as book;
ghost use Rattle.dex_worth.specs.Rows as shown;
ghost use Rattle.dex_worth.specs.Tables.{ArePaidAtOnce};

use crate::amounts::TokenAmounts;
use crate::entries::Moved;
use crate::holdings::held_of;
use crate::ledger::{Ledger, ledgers_of, take_journals};
use dex_replay::calls::an_entry_tells_its_call;
use dex_state::Outcome;
use dex_types::{Address, MarketAccounts, NoMemory, Row};
use std::alloc::Global;

/// What an account is worth, in native units of base (coin) and quote (pc): what its market holds for it, less what it
/// deposited, plus what was settled out to it.
#[derive(Clone, Copy, Debug, PartialEq, Eq)]
pub struct Worth {
    pub coin: i128,
    pub pc: i128,
}

/// The worth of an account of a market.
#[derive(Clone, Copy, Debug, PartialEq, Eq)]
pub struct WorthRow {
    pub market: Address,
    pub account: Address,
    pub worth: Worth,
}

/// An amount as a signed number. From 2^127 on it wants memory: an entry moves at most 2^66, and no memory holds as
/// many entries.
fn signed(amount: u128) -> Result<i128, NoMemory>
    ensures { IfOk result (λ number. (number ≡ pos amount) × (amount < 2 ^ 127)) }
{
    match i128::try_from(amount) {
        Ok(number) => Ok(number),
        Err(_) => Err(NoMemory),
    }
}

/// What is held and what was settled, less what was deposited, exactly.
fn difference(held: u128, deposited: u128, settled: u128) -> Result<i128, NoMemory>
    ensures { IfOk result (λ worth. (h d s : ℕ) → held ≡ capped h → deposited ≡ capped d
        → settled ≡ capped s → worth ≡ (pos h -ℤ pos d) +ℤ pos s) }
{
    let plus = signed(held.saturating_add(settled))?;
    let less = signed(deposited)?;
    Ok(plus - less)
}

/// The worth of an account, by what is held for it, and what was moved for it.
fn worth_of(held: TokenAmounts, moved: Moved) -> Result<Worth, NoMemory>
    ensures { IfOk result (λ worth. (h d s : AmountsOf) → held ≡ capped_amounts h
        → moved.deposited ≡ capped_amounts d → moved.settled ≡ capped_amounts s
        → shown.plain_worth worth ≡ shown.worth_by h d s) }
{
    let coin = difference(held.coin, moved.deposited.coin, moved.settled.coin)?;
    let pc = difference(held.pc, moved.deposited.pc, moved.settled.pc)?;
    Ok(Worth { coin, pc })
}

/// Adds the rows of accounts of a market, by what is held and what was moved for each.
fn add_rows(
    table: &mut Vec<WorthRow>,
    market: Address,
    held: &[TokenAmounts],
    accounts: &[Moved],
) -> Result<(), NoMemory>
    requires { length held.now ≡ length accounts.now }
    ensures { OnOk result ((amounts : AddressOf → AmountsOf) (owners : List AddressOf) (calls : List Call)
        → tally.AreSums amounts owners held.now → accounts.now ≡ map (moved_told calls) owners
        → map shown.plain_row table.new.items ≡ map shown.plain_row table.old.items
        ++ map (shown.row_by market amounts (all_in calls) (all_out calls)) owners) }
{
    for place in 0..accounts.len() {
        let worth = worth_of(held[place], accounts[place])?;
        let account = accounts[place].owner;
        table.push(WorthRow {
            market,
            account,
            worth,
        })?;
    }
    Ok(())
}

/// The addresses of these accounts.
fn owners_of(alloc: Global, accounts: &[Moved]) -> Result<Vec<Address>, NoMemory>
    ensures { IfOk result (λ owners. owners.items ≡ map (λ (account : MovedOf). account.owner) accounts.now) }
{
    let mut owners = Vec::new(alloc);
    for place in 0..accounts.len() {
        owners.push(accounts[place].owner)?;
    }
    Ok(owners)
}

/// Adds the rows of a market with these last accounts.
fn add_market(
    alloc: Global,
    table: &mut Vec<WorthRow>,
    ledger: &Ledger,
    last: &MarketAccounts,
) -> Result<(), NoMemory>
    requires { IsAccepted (market_accounts_of last.now) }
    ensures { OnOk result ((script : PlainScript) (journal : PlainMarketJournal)
        → book.IsLedgerOf script ledger.now (market_accounts_of last.now) journal
        → last.now.address ≡ journal.address → map shown.plain_row table.new.items
        ≡ map shown.plain_row table.old.items ++ rows_told script (market_accounts_of last.now) journal) }
{
    let owners = owners_of(alloc, &ledger.accounts)?;
    let held = held_of(alloc, last, &owners)?;
    add_rows(table, last.address, &held, &ledger.accounts)
}

/// What each account of each market is worth at the end of a lawful outcome, by ledgers that hold what its journals
/// tell and by its last accounts: markets and accounts in declared order. It answers otherwise for lack of memory
/// alone.
pub fn table_of(
    alloc: Global,
    ledgers: &[Ledger],
    lasts: &[MarketAccounts],
) -> Result<Vec<WorthRow>, NoMemory>
    requires { All (λ (last : MarketAccountsOf). IsAccepted (market_accounts_of last)) lasts.now }
    ensures told { IfOk result (λ table. (script : PlainScript) (outcome : PlainOutcome)
        → IsLawful script outcome → map market_accounts_of lasts.now ≡ outcome.accounts.markets
        → book.AreLedgersOf script ledgers.now outcome
        → map shown.plain_row table.items ≡ table_told script outcome) }
    ensures paid_at_once { (script : PlainScript) (outcome : PlainOutcome) → IsScript script
        → IsLawful script outcome → map market_accounts_of lasts.now ≡ outcome.accounts.markets
        → ArePaidAtOnce script outcome }
{
    an_entry_tells_its_call();
    let mut table = Vec::new(alloc);
    let count = ledgers.len().min(lasts.len());
    for place in 0..count {
        add_market(alloc, &mut table, &ledgers[place], &lasts[place])?;
    }
    Ok(table)
}

/// What each account of each market is worth at the end of a lawful outcome: markets and accounts in declared order.
/// The rows are those of the outcome's script, by numbers that never fall. It answers otherwise for lack of memory
/// alone.
pub fn worth_table(
    alloc: Global,
    rows: &[Row],
    outcome: &Outcome,
) -> Result<Vec<WorthRow>, NoMemory>
    requires accepted { All IsAccepted (outcome_of outcome.now).accounts.markets }
    requires rising { AllPairs (λ (one other : PlainRow). one.number ≤ other.number) (map row_of rows.now) }
    ensures told { IfOk result (λ table. (script : PlainScript) → IsScript script
        → map row_of rows.now ≡ script.rows → IsLawful script (outcome_of outcome.now)
        → map shown.plain_row table.items ≡ table_told script (outcome_of outcome.now)) }
    ensures paid_at_once { (script : PlainScript) → IsScript script → IsLawful script (outcome_of outcome.now)
        → ArePaidAtOnce script (outcome_of outcome.now) }
{
    an_entry_tells_its_call();
    let mut ledgers = ledgers_of(alloc, &outcome.accounts.markets)?;
    take_journals(&mut ledgers, rows, &outcome.markets);
    table_of(alloc, &ledgers, &outcome.accounts.markets)
}
