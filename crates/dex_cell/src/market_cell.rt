//! A market's cell.

ghost use Rattle.std.specs.Prelude.{◌≡◌, ◌<◌, ◌-◌, ◌++◌, ◌∷◌, [], IfOk, Ok, Err, List, false, length};
ghost use Rattle.dex_ring.specs.PendingFills.{pending_fills_of};
ghost use Rattle.dex_ring.specs.Ring.{IsEventQueue, ring_of};

use crate::call_record::CallRecord;
use crate::journal::write_down;
use crate::payouts::{Deposits, Payouts, Vaults, pay};
use dex_decide::Plan;
use dex_fills::{PendingFills, pending_fills};
use dex_index::AccountIndex;
use dex_movements::Amounts;
use dex_purse::amounts_of;
use dex_ring::RingRef;
use dex_stamps::{Kept, Log};
use dex_types::{Entry, MarketAccounts, NoMemory, Refusal, Reply, Row, Seen};
use dex_wallet::Parcel;
use std::alloc::Global;
use std::marker::Model;

/// A market: its accounts, the parcels that its two vaults are, and its journal. It keeps an index of its open-orders
/// accounts, so a row's account is found as quickly among many as among few.
///
/// The accounts are always accepted, and those of the sound market that stands at the end of the journal, which is one
/// legal history of the market that the cell was made with. Where a cell is dropped its parcels are given up.
#[derive(Drop)]
pub struct MarketCell {
    start: Kept<MarketAccounts>,
    accounts: MarketAccounts,
    index: AccountIndex,
    vaults: Vaults,
    pending: PendingFills,
    calls: Log<Row, CallRecord>,
    entries: Vec<Entry>,
    room: usize,
}

impl Model for MarketCell {
    ghost use Rattle.dex_cell.specs.CellState.{MarketCellState};

    ghost Value = { MarketCellState };

    ghost use Rattle.dex_cell.specs.CellInside.{cell_inside, IsKept};

    ghost view = { cell_inside };

    ghost invariant = { IsKept };
}

/// The two sums of pending events.
fn pending_in(events: &[u8]) -> PendingFills
    requires { IsEventQueue events.now }
    ensures { result ≡ pending_fills_of (ring_of events.now).events }
{
    pending_fills(&RingRef { bytes: events })
}

impl MarketCell {
    ghost use Rattle.dex_types.specs.declared.replies.Reply.TheVariants.{Done, Refused};
    ghost use Rattle.dex_types.specs.Accounts.{market_accounts_of};
    ghost use Rattle.dex_types.specs.Rows.{row_of};
    ghost use Rattle.dex_types.specs.Side.{Coin, Pc};
    ghost use Rattle.dex_accounts.specs.Accepted.{IsAccepted};
    ghost use Rattle.dex_accounts.specs.Decoded.{AreSound};
    ghost use Rattle.dex_history.specs.Journal.{Call, Sees, asked_of, is_refusal};
    ghost use Rattle.dex_movements.specs.Amounts.{transfers_of};
    ghost use Rattle.dex_plan.specs.Owing.{plan_transfers};
    ghost use Rattle.dex_wallet.specs.TokenAmount.{held_in};
    ghost use Rattle.dex_cell.specs.CellState as cells;
    ghost use Rattle.dex_cell.specs.CellState.{CanHold, HasActed, HasHeld, HasSpare, HasTaken, IsFor, IsMarketCell};
    ghost use Rattle.dex_cell.specs.CellState.{answer_on, market_at, step_on};
    ghost use Rattle.dex_cell.specs.Paying.{paid_in, paid_out};

    /// The cell of a market's accounts and of the parcels that its vaults are, with room for this many rows. Where
    /// there is no memory for them, all are given up.
    pub fn new(
        alloc: Global,
        accounts: MarketAccounts,
        coin: Parcel,
        pc: Parcel,
        room: usize,
    ) -> Result<MarketCell, NoMemory>
        requires sound { AreSound (market_accounts_of accounts) }
        requires accepted { IsAccepted (market_accounts_of accounts) }
        requires coin { coin ≡ held_in accounts.coin_vault.items }
        requires pc { pc ≡ held_in accounts.pc_vault.items }
        ensures { IfOk result (λ cell. cell ≡ cells.new_cell (market_accounts_of accounts) room) }
    {
        let vaults = Vaults { coin, pc };
        let index = AccountIndex::of(alloc, &accounts.orders)?;
        let entries = Vec::with_capacity(alloc, room)?;
        let start = Kept::of(&accounts);
        let pending = pending_in(&accounts.events);
        Ok(MarketCell {
            start,
            accounts,
            index,
            vaults,
            pending,
            calls: Log::new(),
            entries,
            room,
        })
    }

    /// For how many further rows there is room.
    pub fn spare(&self) -> usize
        ensures spare { result ≡ self.now.room - length self.now.calls }
        ensures cell { IsMarketCell self.now }
    {
        self.room - self.entries.len()
    }

    /// The journal, from the first entry to the last.
    pub fn entries(&self) -> &[Entry]
        ensures entries { result.now ≡ cells.entries_of self.now }
        ensures cell { IsMarketCell self.now }
    {
        &self.entries
    }

    /// The accounts, as they are after all rows.
    pub fn accounts(&self) -> &MarketAccounts
        ensures accounts { market_accounts_of result.now ≡ self.now.accounts }
        ensures cell { IsMarketCell self.now }
    {
        &self.accounts
    }

    /// Whether a row is refused, by the first reason that holds against it and with what was read for it, and what it
    /// is to do else. It reads only.
    pub fn decide(&self, row: &Row, seen: &Seen) -> Result<Plan, Refusal>
        requires { IsFor row.now seen.now self.now }
        ensures { result ≡ answer_on row.entry.now seen.now self.now }
    {
        dex_index::decide(&self.accounts, &self.index, row, seen, &self.pending)
    }

    /// Decides a row, and writes the answer where it is wanted.
    pub fn decide_into(&self, row: &Row, seen: &Seen, answer: &mut Result<Plan, Refusal>)
        requires { IsFor row.now seen.now self.now }
        ensures { answer.new ≡ answer_on row.entry.now seen.now self.now }
    {
        dex_index::decide_into(
            &self.accounts,
            &self.index,
            row,
            seen,
            &self.pending,
            answer,
        );
    }

    /// Does a row as it was decided, with the parcels of the plan's deposit, and answers its reply, which is no
    /// refusal, and the parcels that it pays out. The journal has one entry more.
    pub fn apply(
        &mut self,
        row: &Row,
        seen: &Seen,
        plan: Plan,
        coin: Option<Parcel>,
        pc: Option<Parcel>,
    ) -> (Reply, Payouts)
        requires row { IsFor row.now seen.now self.old }
        requires decided { Ok plan ≡ answer_on row.now seen.now self.old }
        requires coin { coin ≡ paid_in Coin plan (market_at self.old) }
        requires pc { pc ≡ paid_in Pc plan (market_at self.old) }
        requires spare { HasSpare self.old }
        ensures reply { result.0 ≡ (step_on row.entry.now seen.now self.old).reply }
        ensures done { is_refusal result.0 ≡ false }
        ensures paid { result.1 ≡ paid_out (market_at self.old) (step_on row.entry.now seen.now self.old).transfers }
        ensures acted { HasActed row.entry.now seen.now self.old self.new }
        ensures cell { IsMarketCell self.new }
    {
        let payouts = self.carry_out(row, seen, &plan, &amounts_of(&plan), Deposits { coin, pc });
        (self.last().reply, payouts)
    }

    /// Does a row as `apply` does, with the plan and what it moves lent; its reply is that of the last entry.
    pub fn carry_out(
        &mut self,
        row: &Row,
        seen: &Seen,
        plan: &Plan,
        amounts: &Amounts,
        deposits: Deposits,
    ) -> Payouts
        requires row { IsFor row.now seen.now self.old }
        requires decided { Ok plan.now ≡ answer_on row.now seen.now self.old }
        requires amounts { transfers_of amounts.now ≡ plan_transfers plan.now }
        requires coin { deposits.coin ≡ paid_in Coin plan.now (market_at self.old) }
        requires pc { deposits.pc ≡ paid_in Pc plan.now (market_at self.old) }
        requires spare { HasSpare self.old }
        ensures done { is_refusal (step_on row.entry.now seen.now self.old).reply ≡ false }
        ensures paid { result ≡ paid_out (market_at self.old) (step_on row.entry.now seen.now self.old).transfers }
        ensures taken { HasTaken row.entry.now seen.now self.old self.new }
    {
        let reply = dex_index::apply(
            &mut self.accounts,
            &self.index,
            row,
            seen,
            plan,
            &mut self.pending,
        );
        let payouts = pay(
            &mut self.vaults.coin,
            &mut self.vaults.pc,
            amounts,
            deposits,
        );
        let MarketCell { calls, entries, .. } = self;
        write_down(calls, entries, row, seen, reply, amounts);
        payouts
    }

    /// Writes a row down that moves nothing, where the cell is one then.
    fn note(&mut self, row: &Row, seen: &Seen, reply: Reply)
        requires sees { Sees (asked_of (row_of row.now)) seen.now }
        requires cell { IsMarketCell self.old → IsMarketCell (cells.noted_on row.now seen.now reply self.old) }
        ensures noted { self.new ≡ cells.noted_on row.entry.now seen.now reply self.old }
        ensures cell { IsMarketCell self.new }
    {
        let MarketCell { calls, entries, .. } = self;
        write_down(calls, entries, row, seen, reply, &Amounts::none());
    }

    /// Writes down that a row is refused, as it was decided: the journal has one entry more, and all accounts stay as
    /// they are, byte by byte.
    pub fn refuse(&mut self, row: &Row, seen: &Seen, refusal: Refusal)
        requires row { IsFor row.now seen.now self.old }
        requires decided { Err refusal ≡ answer_on row.now seen.now self.old }
        requires spare { HasSpare self.old }
        ensures refused { self.new ≡ cells.refused_on row.entry.now seen.now self.old }
        ensures reply { (step_on row.entry.now seen.now self.old).reply ≡ Refused refusal }
        ensures taken { HasTaken row.entry.now seen.now self.old self.new }
    {
        self.note(row, seen, Reply::Refused(refusal));
    }

    /// Writes down that a take is held back which would not be refused, for a row whose item is refused elsewhere, and
    /// answers that it is done: the journal has one entry more, and all accounts stay as they are, byte by byte.
    pub fn idle(&mut self, row: &Row, seen: &Seen) -> Reply
        requires row { IsFor row.now seen.now self.old }
        requires held { CanHold row.now seen.now self.old }
        requires spare { HasSpare self.old }
        ensures reply { result ≡ Done }
        ensures held { HasHeld row.entry.now seen.now self.old self.new }
    {
        self.note(row, seen, Reply::Done);
        Reply::Done
    }

    /// The entry of the last row.
    pub fn last(&self) -> &Entry
        requires { 0 < length self.now.calls }
        ensures { (past : List Call) (call : Call) → self.now.calls ≡ past ++ call ∷ []
            → result.now ≡ call.entry }
    {
        let entries = self.entries();
        &entries[entries.len() - 1]
    }

    /// The accounts and the journal, as they are. Both parcels are given up.
    pub fn into_parts(self) -> (MarketAccounts, Vec<Entry>)
        ensures accounts { market_accounts_of result.0 ≡ self.accounts }
        ensures entries { result.1.items ≡ cells.entries_of self }
        ensures cell { IsMarketCell self }
    {
        let MarketCell {
            accounts,
            entries,
            ..
        } = self;
        (accounts, entries)
    }
}
