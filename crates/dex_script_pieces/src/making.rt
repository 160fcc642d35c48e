//! Markets that several threads make.

ghost use denote.Param.Send.{IsSync};
ghost use Rattle.std.specs.Prelude.{◌≡◌, IfOk, Ok, length, map, ⊤};
ghost use Rattle.std.specs.List.{AllZip};
ghost use Rattle.dex_script_pieces.specs.Making.{MakesMarket, MakesMarkets, in_jobs};
ghost use Rattle.dex_script_pieces.specs.Pieces.{ReadsPiece};

use crate::piece::Piece;
use dex_lanes::{Job, run_jobs};
use dex_script::{DeclaredMarket, MakeMarkets, make_markets};
use dex_types::NoMemory;
use std::alloc::Global;
use std::marker::Sync;
use std::thread::{Threads, join_mut};

/// Markets of fewer bytes are made one after the other.
const FEWEST: usize = 1_048_576;

/// Markets are made on threads of this runtime.
#[derive(Drop)]
pub(crate) struct SideBySide<'a, R> {
    pub(crate) rt: &'a R,
}

impl<'a, R: Threads + Sync> MakeMarkets for SideBySide<'a, R> {
    ghost ready = { λ making. IsSync R.row };

    ghost ran = { λ before after. ⊤ };

    fn make_markets(
        &mut self,
        alloc: Global,
        markets: Vec<DeclaredMarket>,
    ) -> Result<Vec<DeclaredMarket>, NoMemory> {
        make_side_by_side(self.rt, alloc, markets)
    }
}

/// Like `make_markets`, and pieces of rows are read meanwhile.
#[derive(Drop)]
pub(crate) struct BesidePieces<'a, 'b, R> {
    pub(crate) rt: &'a R,
    pub(crate) pieces: Vec<Piece<'b>>,
}

impl<'a, 'b, R: Threads + Sync> MakeMarkets for BesidePieces<'a, 'b, R> {
    ghost ready = { λ making. IsSync R.row };

    ghost ran = { λ before after. AllZip ReadsPiece before.pieces.items after.pieces.items };

    fn make_markets(
        &mut self,
        alloc: Global,
        markets: Vec<DeclaredMarket>,
    ) -> Result<Vec<DeclaredMarket>, NoMemory> {
        let mut making = MakingAll {
            rt: self.rt,
            alloc,
            markets: Ok(markets),
        };
        make_and_read(self.rt, &mut making, &mut self.pieces);
        making.markets
    }
}

// Makes all markets on a thread of its own, and reads pieces meanwhile.
fn make_and_read<R: Threads + Sync>(
    rt: &R,
    markets: &mut MakingAll<'_, R>,
    pieces: &mut [Piece<'_>],
)
    ensures markets { MakesMarkets markets.old.markets markets.new.markets }
    ensures pieces { AllZip ReadsPiece pieces.old pieces.new }
    ensures count { length pieces.new ≡ length pieces.old }
{
    let mut make = ||
        requires { IsSync R.row }
        ensures { MakesMarkets markets.entry.now.markets markets.exit.now.markets }
    { markets.run() };
    let mut read = ||
        requires { IsSync R.row }
        ensures { AllZip ReadsPiece pieces.entry.now pieces.exit.now
            × (length pieces.exit.now ≡ length pieces.entry.now) }
    { run_jobs(rt, pieces) };
    join_mut(rt, &mut make, &mut read);
}

/// All markets, which one thread has made.
#[derive(Drop)]
struct MakingAll<'a, R> {
    rt: &'a R,
    alloc: Global,
    /// The markets, until memory is wanting.
    markets: Result<Vec<DeclaredMarket>, NoMemory>,
}

impl<'a, R: Threads + Sync> Job for MakingAll<'a, R> {
    ghost ready = { λ making. IsSync R.row };

    ghost ran = { λ before after. MakesMarkets before.markets after.markets };

    fn run(&mut self) {
        let markets = std::mem::replace(&mut self.markets, Err(NoMemory));
        self.markets = all_made(self.rt, self.alloc, markets);
    }
}

/// A market that one thread makes.
#[derive(Drop)]
pub(crate) struct Making {
    alloc: Global,
    /// The market, until memory is wanting.
    market: Result<DeclaredMarket, NoMemory>,
}

impl Job for Making {
    ghost ready = { λ making. ⊤ };

    ghost ran = { MakesMarket };

    fn run(&mut self) {
        let market = std::mem::replace(&mut self.market, Err(NoMemory));
        self.market = made(self.alloc, market);
    }
}

/// These markets with their accounts made. Where these are large, a thread makes each market's.
fn make_side_by_side<R: Threads + Sync>(
    rt: &R,
    alloc: Global,
    markets: Vec<DeclaredMarket>,
) -> Result<Vec<DeclaredMarket>, NoMemory>
    ensures { IfOk result (λ made. made.items ≡ markets.items) }
{
    if are_small(&markets) {
        return make_markets(alloc, markets);
    }
    let mut jobs = jobs_of(alloc, markets)?;
    run_jobs(rt, &mut jobs);
    made_by(alloc, jobs)
}

// These markets with their accounts made.
fn all_made<R: Threads + Sync>(
    rt: &R,
    alloc: Global,
    markets: Result<Vec<DeclaredMarket>, NoMemory>,
) -> Result<Vec<DeclaredMarket>, NoMemory>
    ensures { MakesMarkets markets result }
{
    make_side_by_side(rt, alloc, markets?)
}

// A market with its accounts made.
fn made(alloc: Global, market: Result<DeclaredMarket, NoMemory>) -> Result<DeclaredMarket, NoMemory>
    ensures { IfOk result (λ made. market ≡ Ok made) }
{
    market?.made(alloc)
}

// Whether so few bytes are to be made that no threads are worth their start.
fn are_small(markets: &[DeclaredMarket]) -> bool {
    let mut bytes = 0_usize;
    for market in markets {
        bytes = bytes.saturating_add(market.bytes_to_make());
    }
    bytes < FEWEST
}

// A job for each market.
fn jobs_of(alloc: Global, markets: Vec<DeclaredMarket>) -> Result<Vec<Making>, NoMemory>
    ensures { IfOk result (λ jobs. in_jobs jobs.items ≡ map Ok markets.items) }
{
    let mut jobs = Vec::with_capacity(alloc, markets.len())?;
    for market in markets {
        jobs.push(Making {
            alloc,
            market: Ok(market),
        })?;
    }
    Ok(jobs)
}

// The markets that jobs made.
fn made_by(alloc: Global, jobs: Vec<Making>) -> Result<Vec<DeclaredMarket>, NoMemory>
    ensures { IfOk result (λ made. map Ok made.items ≡ in_jobs jobs.items) }
{
    let mut made = Vec::with_capacity(alloc, jobs.len())?;
    for job in jobs {
        made.push(job.market?)?;
    }
    Ok(made)
}
