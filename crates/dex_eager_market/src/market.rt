//! A market that pays each fill at once, row by row.

ghost use Rattle.std.specs.Prelude.{◌≡◌, ◌+◌, ◌-ℤ◌, ◌^◌, ◌<◌, ◌≤◌, pos, map, IfOk, None, Some};
ghost use Rattle.std.specs.List.{All};
ghost use Rattle.dex_types.specs.Accounts.{market_accounts_of};
ghost use Rattle.dex_types.specs.Rows.{row_of};
ghost use Rattle.dex_accounts.specs.Accepted.{IsAccepted};
ghost use Rattle.dex_accounts.specs.Decoded.{AreSound, market_in};
ghost use Rattle.dex_eager.specs.Eager.{eager_step, worth_at};
ghost use Rattle.dex_eager.specs.Histories.{eager_start};
ghost use Rattle.dex_history.specs.Journal.{request_of};
ghost use Rattle.dex_worth.specs.Rows.{plain_worth};
ghost use Rattle.dex_eager_market.specs.Accounts as book;

use crate::accounts::{Account, Change};
use crate::acting::act;
use crate::making::state_of;
use crate::states::State;
use dex_instruction::decode;
use dex_types::{Address, MarketAccounts, NoMemory, Row, Seen, is_same};
use dex_worth::Worth;
use std::alloc::Global;
use std::marker::Model;

/// A market that pays each fill at once, and how many steps it made. Both sides are plain lists in book order, and each
/// account's worth is kept by sums of 128 bits.
#[derive(Drop)]
pub struct EagerMarket {
    state: State,
    steps: u64,
}

impl Model for EagerMarket {
    ghost use Rattle.dex_eager_market.specs.Running.{Running, IsRunning, running};

    ghost Value = { Running };

    ghost view = { λ m. running m.state m.steps };

    ghost invariant = { λ m. IsRunning m.state m.steps };
}

/// What came in less what was paid.
fn difference(gained: u128, paid: u128) -> i128
    requires gained { gained ≤ 2 ^ 126 }
    requires paid { paid ≤ 2 ^ 126 }
    ensures { result ≡ pos gained -ℤ pos paid }
{
    gained as i128 - paid as i128
}

/// What a change is worth.
fn worth_of(change: Change) -> Worth
    requires { book.IsSmall (2 ^ 126) change }
    ensures { plain_worth result ≡ book.worth_of change }
{
    Worth {
        coin: difference(change.gained.coin, change.paid.coin),
        pc: difference(change.gained.pc, change.paid.pc),
    }
}

/// The worth of the account of this address, if there is one.
fn worth_in(accounts: &[Account], owner: Address) -> Option<Worth>
    requires { All (book.IsWithin (2 ^ 126)) accounts.now }
    ensures { book.plain_there result ≡ worth_at owner (map book.entry_of accounts.now) }
{
    for place in 0..accounts.len() {
        if is_same(owner, accounts[place].address) {
            return Some(worth_of(accounts[place].total));
        }
    }
    None
}

impl EagerMarket {
    /// A market that begins to pay at once, of the accounts of a sound market. Both sides are reserved here; it answers
    /// otherwise for lack of memory alone.
    pub fn new(alloc: Global, accounts: &MarketAccounts) -> Result<EagerMarket, NoMemory>
        requires accepted { IsAccepted (market_accounts_of accounts.now) }
        requires sound { AreSound (market_accounts_of accounts.now) }
        ensures { IfOk result (λ m. m ≡ record {
          market = eager_start (market_in (market_accounts_of accounts.now));
          steps = 0;
        }) }
    {
        let state = state_of(alloc, accounts)?;
        Ok(EagerMarket { state, steps: 0 })
    }

    /// One step: what a row does that saw this. Fewer than 2^32 steps were made, so no worth passes an i128. An order
    /// that is too large, has no sequence number or would have to abort changes nothing. It takes no memory.
    pub fn step(&mut self, row: &Row, seen: &Seen)
        requires { self.old.steps < 2 ^ 32 }
        ensures market { self.new.market ≡ (eager_step (request_of (row_of row.entry.now)) seen.now
            self.old.market).market }
        ensures steps { self.new.steps ≡ self.old.steps + 1 }
    {
        if let Ok(ix) = decode(&row.bytes) {
            act(&mut self.state, ix, row, seen);
        }
        self.steps += 1;
    }

    /// What an account is worth. None is answered exactly where the account is none of the market's.
    pub fn worth(&self, account: Address) -> Option<Worth>
        ensures { book.plain_there result ≡ worth_at account self.now.market.worths }
    {
        worth_in(&self.state.till.accounts, account)
    }
}
