//! The summary of a large run.

ghost use Rattle.std.specs.Prelude.{◌≡◌, ◌+◌, ◌++◌, IfOk, OnOk, Some, count_by, length, map, not};
ghost use Rattle.std.specs.List.{All, flat_map};
ghost use Rattle.std.specs.String.{string_bytes};
ghost use Rattle.dex_types.specs.declared.movements.Entry.{Entry};
ghost use Rattle.dex_types.specs.Accounts.{accounts_of, market_accounts_of};
ghost use Rattle.dex_accounts.specs.Accepted.{IsAccepted};
ghost use Rattle.dex_accounts.specs.Decoded.{market_in};
ghost use Rattle.dex_history.specs.Journal.{is_refusal};
ghost use Rattle.dex_market.specs.MarketAccount.{IsMarket, market_words};
ghost use Rattle.dex_ring.specs.Ring.{IsEventQueue, ring_of};
ghost use Rattle.dex_slab.specs.Slab.{IsSlab, resting};
ghost use Rattle.dex_token.specs.TokenAccount.{IsWallet, wallet_words};
ghost use Rattle.dex_report.specs.Bulk as summaries;
ghost use Rattle.dex_state.specs.Outcomes.{market_journal_of, outcome_of};

use dex_market::MarketRef;
use dex_ring::RingRef;
use dex_slab::SlabRef;
use dex_state::{MarketJournal, Outcome};
use dex_token::WalletRef;
use dex_types::{Accounts, Address, Entry, MarketAccounts, NoMemory, Reply, Side, SideRead};
use std::alloc::{AllocError, Global};
use std::fmt;
use std::fmt::Write;

/// The summary of what the made script of this number with this many rows came to: how many of all instructions were
/// accepted and refused, and for each market its resting orders, its pending events, its vaults and its fees, in native
/// units.
pub fn bulk_text(
    alloc: Global,
    number: u64,
    rows: u32,
    outcome: &Outcome,
) -> Result<Vec<u8>, NoMemory>
    requires { All IsAccepted (outcome_of outcome.now).accounts.markets }
    ensures { IfOk result (λ text. text.items ≡ summaries.bulk_text number rows (outcome_of outcome.now)) }
{
    let mut counts = Counts {
        accepted: 0,
        refused: 0,
    };
    counts.take(&outcome.markets)?;
    summary_text(alloc, number, rows, counts, &outcome.accounts)
}

/// The summary of a script of this number with this many rows, of which so many instructions were accepted and refused,
/// and of the last accounts.
pub fn summary_text(
    alloc: Global,
    number: u64,
    rows: u32,
    counts: Counts,
    accounts: &Accounts,
) -> Result<Vec<u8>, NoMemory>
    requires { All IsAccepted (accounts_of accounts.now).markets }
    ensures { IfOk result (λ text. text.items
        ≡ summaries.summary_text number rows counts (accounts_of accounts.now).markets) }
{
    let Counts { accepted, refused } = counts;
    let mut text = String::new(alloc);
    write!(
        text,
        "bulk {number} {rows}\naccepted {accepted}\nrefused {refused}\n"
    )?;
    write_markets(&mut text, &accounts.markets)?;
    Ok(text.into_bytes())
}

/// How many instructions were accepted, and how many refused.
#[derive(Clone, Copy, Debug)]
pub struct Counts {
    pub accepted: u64,
    pub refused: u64,
}

impl Counts {
    /// Counts the entries of these journals too.
    pub fn take(&mut self, journals: &[MarketJournal]) -> Result<(), NoMemory>
        ensures { OnOk result (self.new
            ≡ summaries.counts_with self.old (map market_journal_of journals.now)) }
    {
        for journal in journals {
            self.accepted = with(self.accepted, accepted(&journal.entries))?;
            self.refused = with(self.refused, refused(&journal.entries))?;
        }
        Ok(())
    }
}

/// Both together. No memory would hold as many entries as are too many.
fn with(count: u64, more: u64) -> Result<u64, NoMemory>
    ensures { IfOk result (λ sum. sum ≡ count + more) }
{
    count.checked_add(more).ok_or(NoMemory)
}

fn accepted(entries: &[Entry]) -> u64
    ensures { result ≡ count_by (λ (entry : Entry). not (is_refusal entry.reply)) entries.now }
{
    entries
        .iter()
        .filter(|entry| !is_refusal(&entry.reply))
        .count() as u64
}

fn refused(entries: &[Entry]) -> u64
    ensures { result ≡ count_by (λ (entry : Entry). is_refusal entry.reply) entries.now }
{
    entries
        .iter()
        .filter(|entry| is_refusal(&entry.reply))
        .count() as u64
}

fn is_refusal(reply: &Reply) -> bool
    ensures { result ≡ is_refusal reply.now }
{
    matches!(reply, Reply::Refused(_))
}

fn write_markets(text: &mut String, markets: &[MarketAccounts]) -> Result<(), AllocError>
    requires { All IsAccepted (map market_accounts_of markets.now) }
    ensures { let lines = flat_map summaries.market_line (map market_accounts_of markets.now) in
        OnOk result (string_bytes text.new ≡ string_bytes text.old ++ lines) }
{
    'markets: for market in markets {
        write!(text, "{}", summary_of(market))?;
    }
    Ok(())
}

/// What the summary tells of a market.
#[tactic(auto, unfolding(dex_accounts::specs::Decoded::market_in))]
fn summary_of(accounts: &MarketAccounts) -> MarketSummary
    requires { IsAccepted (market_accounts_of accounts.now) }
    ensures { result ≡ summaries.summary_of (market_in (market_accounts_of accounts.now)) }
{
    MarketSummary {
        address: accounts.address,
        counts: BookCounts {
            bids: resting(&accounts.bids, Side::Bid),
            asks: resting(&accounts.asks, Side::Ask),
            events: pending(&accounts.events),
        },
        funds: MarketFunds {
            coin: amount(&accounts.coin_vault),
            pc: amount(&accounts.pc_vault),
            fees: fees(&accounts.market),
        },
    }
}

fn resting(bytes: &[u8], side: Side) -> u32
    requires { IsSlab bytes.now }
    ensures { result ≡ length (resting side bytes.now) }
{
    SlabRef { bytes, side }.count()
}

fn pending(bytes: &[u8]) -> u32
    requires { IsEventQueue bytes.now }
    ensures { result ≡ length (ring_of bytes.now).events }
{
    RingRef { bytes }.len()
}

fn amount(bytes: &[u8]) -> u64
    requires { IsWallet bytes.now }
    ensures { result ≡ (wallet_words bytes.now).amount }
{
    WalletRef { bytes }.amount()
}

fn fees(bytes: &[u8]) -> u64
    requires { IsMarket bytes.now }
    ensures { result ≡ (market_words bytes.now).pc_fees_accrued }
{
    MarketRef { bytes }.pc_fees_accrued()
}

/// How many bids and asks rest on a market, and how many events are pending.
#[derive(Clone, Copy, Debug)]
pub struct BookCounts {
    pub bids: u32,
    pub asks: u32,
    pub events: u32,
}

impl fmt::Display for BookCounts {
    ghost output = { λ counts. Some (summaries.counts_text counts) };

    #[tactic(auto, unfolding(crate::specs::Bulk::counts_text))]
    fn fmt<W: fmt::Write>(&self, f: &mut fmt::Formatter<W>) -> fmt::Result {
        let BookCounts { bids, asks, events } = *self;
        write!(f, "bids {bids} asks {asks} events {events}")
    }
}

/// What a market's two vaults hold and its fees that can be swept, in native units.
#[derive(Clone, Copy, Debug)]
pub struct MarketFunds {
    pub coin: u64,
    pub pc: u64,
    pub fees: u64,
}

impl fmt::Display for MarketFunds {
    ghost output = { λ funds. Some (summaries.funds_text funds) };

    #[tactic(auto, unfolding(crate::specs::Bulk::funds_text))]
    fn fmt<W: fmt::Write>(&self, f: &mut fmt::Formatter<W>) -> fmt::Result {
        let MarketFunds { coin, pc, fees } = *self;
        write!(f, "coin {coin} pc {pc} fees {fees}")
    }
}

/// What the summary tells of one market. It prints as a line.
#[derive(Clone, Copy, Debug)]
pub struct MarketSummary {
    pub address: Address,
    pub counts: BookCounts,
    pub funds: MarketFunds,
}

impl fmt::Display for MarketSummary {
    ghost output = { λ s. Some (summaries.summary_line s) };

    fn fmt<W: fmt::Write>(&self, f: &mut fmt::Formatter<W>) -> fmt::Result {
        let MarketSummary {
            address,
            counts,
            funds,
        } = *self;
        write!(f, "market {address} {counts} {funds}\n")
    }
}
