//! Ledgers: what the journals of markets tell of deposits and settlements. They grow: a script in parts is told part by
//! part.

ghost use Rattle.std.specs.Prelude.{◌≡◌, ◌≤◌, ◌++◌, ◌∷◌, Some, List, [], map, IfOk};
ghost use Rattle.std.specs.List.{AllPairs};
ghost use Rattle.dex_types.specs.declared.addresses.Address.{Address as AddressOf};
ghost use Rattle.dex_types.specs.Accounts.{market_accounts_of};
ghost use Rattle.dex_types.specs.Rows.{PlainRow, row_of};
ghost use Rattle.dex_history.specs.Journal.{Call};
ghost use Rattle.dex_replay.specs.EntryCalls.{calls_told};
ghost use Rattle.dex_script_types.specs.PlainScript.{PlainScript};
ghost use Rattle.dex_state.specs.Outcomes.{market_journal_of};
ghost use Rattle.dex_worth.specs.Entries as told;
ghost use Rattle.dex_worth.specs.Ledgers as book;

use crate::amounts::{NONE, both};
use crate::entries::{Moved, moved_by};
use dex_state::MarketJournal;
use dex_types::{Address, Entry, MarketAccounts, NoMemory, Row, is_same};
use std::alloc::Global;

/// What a market's journal tells so far: for each of the market's accounts, in declared order, what it deposited, and
/// what was settled out to it.
#[derive(Drop)]
pub struct Ledger {
    pub accounts: Vec<Moved>,
}

/// With more, where that was moved for the same account.
fn with_moved(account: Moved, more: Moved) -> Moved
    ensures { result ≡ told.with_moved more account }
{
    if is_same(account.owner, more.owner) {
        Moved {
            owner: account.owner,
            deposited: both(account.deposited, more.deposited),
            settled: both(account.settled, more.settled),
        }
    } else {
        account
    }
}

/// Adds what was moved for an account, wherever it stands among these.
fn add(accounts: &mut [Moved], more: Moved)
    ensures { accounts.new ≡ map (told.with_moved more) accounts.old }
{
    for place in 0..accounts.len() {
        let account = with_moved(accounts[place], more);
        accounts[place] = account;
    }
}

/// Adds what a call moved for an account, if it did.
fn add_moved(accounts: &mut [Moved], moved: Option<Moved>)
    ensures { (owners : List AddressOf) (calls : List Call) (call : Call) → told.AreMoved call moved
        → accounts.old ≡ map (told.moved_told calls) owners
        → accounts.new ≡ map (told.moved_told (calls ++ call ∷ [])) owners }
{
    if let Some(moved) = moved {
        add(accounts, moved);
    }
}

/// Adds what entries of a market's journal tell, by their rows.
fn add_entries(accounts: &mut [Moved], rows: &[Row], market: Address, entries: &[Entry])
    requires { AllPairs (λ (one other : PlainRow). one.number ≤ other.number) (map row_of rows.now) }
    ensures { (script : PlainScript) (owners : List AddressOf) (calls more : List Call)
        → map row_of rows.now ≡ script.rows → calls_told script market entries.now ≡ Some more
        → accounts.old ≡ map (told.moved_told calls) owners
        → accounts.new ≡ map (told.moved_told (calls ++ more)) owners }
{
    for place in 0..entries.len() {
        let moved = moved_by(rows, market, &entries[place]);
        add_moved(accounts, moved);
    }
}

impl Ledger {
    /// A ledger of a market's accounts, of which nothing is told yet.
    fn of(alloc: Global, market: &MarketAccounts) -> Result<Ledger, NoMemory>
        ensures { IfOk result (λ ledger. book.Tells ledger
            (book.owners_in (market_accounts_of market.now)) []) }
    {
        let mut accounts = Vec::new(alloc);
        for place in 0..market.orders.len() {
            accounts.push(Moved {
                owner: market.orders[place].address,
                deposited: NONE,
                settled: NONE,
            })?;
        }
        Ok(Ledger { accounts })
    }

    /// Takes the entries of a part of the market's journal, by the rows of the part.
    fn take(&mut self, rows: &[Row], journal: &MarketJournal)
        requires { AllPairs (λ (one other : PlainRow). one.number ≤ other.number) (map row_of rows.now) }
        ensures { (script : PlainScript) → map row_of rows.now ≡ script.rows
            → book.IsTaken script self.old (market_journal_of journal.now) self.new }
    {
        add_entries(&mut self.accounts, rows, journal.address, &journal.entries);
    }
}

/// A ledger of each of these markets, of which nothing is told yet.
pub fn ledgers_of(alloc: Global, markets: &[MarketAccounts]) -> Result<Vec<Ledger>, NoMemory>
    ensures { IfOk result (λ ledgers. book.AreBlank ledgers.items (map market_accounts_of markets.now)) }
{
    let mut ledgers = Vec::new(alloc);
    for place in 0..markets.len() {
        ledgers.push(Ledger::of(alloc, &markets[place])?)?;
    }
    Ok(ledgers)
}

/// Each ledger takes the entries of its market's journal of one more part, by the rows of the part. These stand by
/// numbers that never fall.
pub fn take_journals(ledgers: &mut [Ledger], rows: &[Row], journals: &[MarketJournal])
    requires { AllPairs (λ (one other : PlainRow). one.number ≤ other.number) (map row_of rows.now) }
    ensures { (script : PlainScript) → map row_of rows.now ≡ script.rows
        → book.AreTaken script ledgers.old (map market_journal_of journals.now) ledgers.new }
{
    let count = ledgers.len().min(journals.len());
    for place in 0..count {
        ledgers[place].take(rows, &journals[place]);
    }
}
