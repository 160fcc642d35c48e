//! A window's rows on several threads, each group of them on its own cells.

ghost use Rattle.std.specs.Prelude.{◌≡◌, IfOk, List, length, map};
ghost use Rattle.std.specs.List.{All, AllZip};
ghost use Rattle.dex_world.specs.declared.places.RowPlaces.{RowPlaces as PlacesOf};
ghost use Rattle.dex_types.specs.Rows.{row_of};
ghost use Rattle.dex_bank.specs.Cells.{AreCells};
ghost use Rattle.dex_batch.specs.Acting.{CanAllAct, HaveActed};
ghost use Rattle.dex_batch.specs.Groups.{AreGroups, IsOfGroup};
ghost use Rattle.dex_batch.specs.Parts.{AreParts};
ghost use Rattle.dex_batch.specs.Shares.{AreShares, HasRun, IsReady, own_cells};

use crate::acting::act_own;
use crate::dealing::{Pile, deal, gather, take_all};
use crate::groups::Groups;
use dex_act::Terms;
use dex_bank::Cells;
use dex_cell::MarketCell;
use dex_io::Pace;
use dex_lanes::{Job, run_jobs};
use dex_types::{Named, NoMemory, Row, add};
use dex_wallet::WalletCell;
use std::alloc::Global;
use std::marker::{Model, Send, Sync};
use std::thread::Threads;

/// Rows that act, and the group of each.
#[derive(Drop)]
pub(crate) struct Window<'a, P> {
    pub(crate) rows: &'a [Row],
    pub(crate) numbers: &'a [usize],
    pub(crate) pace: &'a P,
}

/// A group's cells, its number, and the window whose rows of that number act on them.
#[derive(Drop)]
pub(crate) struct Share<'a, P> {
    cells: Cells,
    number: usize,
    window: &'a Window<'a, P>,
}

impl<'a, P> Model for Share<'a, P> {
    ghost use Rattle.std.specs.Prelude.{map};
    ghost use Rattle.dex_types.specs.Rows.{row_of};
    ghost use Rattle.dex_batch.specs.Shares.{ShareState, share};

    ghost Value = { ShareState };

    ghost view = { λ s. share (map row_of s.window.now.rows.now) s.window.now.numbers.now s.number s.cells };
}

impl<'a, P: Pace> Job for Share<'a, P> {
    ghost ready = { IsReady };

    ghost ran = { HasRun };

    fn run(&mut self) {
        act_own(&mut self.cells, self.window, self.number);
    }
}

/// A share for each pile of markets and the pile of wallets beside it.
fn shares<'a, P: Pace>(
    alloc: Global,
    terms: Terms,
    window: &'a Window<'a, P>,
    markets: Vec<Pile<MarketCell>>,
    wallets: Vec<Pile<WalletCell>>,
) -> Result<Vec<Share<'a, P>>, NoMemory>
    requires beside { length wallets.items ≡ length markets.items }
    requires cells { AllZip (λ m w. AreCells (own_cells terms m w)) markets.items wallets.items }
    ensures { IfOk result (λ shares. AreShares (map row_of window.now.rows.now) window.now.numbers.now terms
        markets.items wallets.items shares.items) }
{
    let mut markets = markets;
    let mut wallets = wallets;
    let mut shares = Vec::new(alloc);
    for number in 0..markets.len() {
        let cells = Cells::of(
            Vec::new(alloc),
            terms,
            take_all(alloc, &mut markets, number),
            take_all(alloc, &mut wallets, number),
        );
        add(
            &mut shares,
            Share {
                cells,
                number,
                window,
            },
        )?;
    }
    Ok(shares)
}

/// The markets and the wallets of shares, in piles.
fn piles<'a, P: Pace>(
    alloc: Global,
    shares: Vec<Share<'a, P>>,
) -> Result<(Vec<Pile<MarketCell>>, Vec<Pile<WalletCell>>), NoMemory>
    ensures markets { IfOk result (λ piles. piles.0.items ≡ map (λ share. share.cells.markets) shares.entry.items) }
    ensures wallets { IfOk result (λ piles. piles.1.items ≡ map (λ share. share.cells.wallets) shares.entry.items) }
    ensures cells { IfOk result (λ _. All (λ share. AreCells share.cells) shares.entry.items) }
{
    let mut markets = Vec::new(alloc);
    let mut wallets = Vec::new(alloc);
    for share in shares {
        let Share { cells, .. } = share;
        let (_, own_markets, own_wallets) = cells.into_parts();
        add(&mut markets, Pile::of(own_markets))?;
        add(&mut wallets, Pile::of(own_wallets))?;
    }
    Ok((markets, wallets))
}

/// All shares run, each on a thread of its own.
fn all_run<'a, R: Threads + Sync, P: Pace + Sync>(
    rt: &R,
    shares: Vec<Share<'a, P>>,
) -> Vec<Share<'a, P>>
    requires ready { All IsReady shares.items }
    ensures { AllZip HasRun shares.entry.items result.items }
{
    let mut shares = shares;
    run_jobs(rt, &mut shares);
    shares
}

/// The rows of a window act, each group's on its own cells and on a thread of its own.
pub(crate) fn act_apart<R: Threads + Sync, P: Pace + Sync>(
    rt: &R,
    alloc: Global,
    cells: Cells,
    groups: &Groups,
    window: &Window<'_, P>,
) -> Result<Cells, NoMemory>
    requires groups { AreGroups (length cells.markets) (length cells.wallets) groups.now }
    requires can { (places : List PlacesOf) × CanAllAct (map row_of window.now.rows.now) places cells
        × AllZip (IsOfGroup groups.now.markets.items groups.now.wallets.items) places window.now.numbers.now }
    ensures { IfOk result (λ left. HaveActed (map row_of window.now.rows.now) (map row_of window.now.rows.now)
        cells left) }
{
    let terms = cells.terms();
    let (mints, markets, wallets) = cells.into_parts();
    let of_markets = deal(alloc, markets, &groups.markets, groups.count)?;
    let of_wallets = deal(alloc, wallets, &groups.wallets, groups.count)?;
    let shares = shares(alloc, terms, window, of_markets, of_wallets)?;
    let (of_markets, of_wallets) = piles(alloc, all_run(rt, shares))?;
    let markets = gather(alloc, of_markets, &groups.markets)?;
    let wallets = gather(alloc, of_wallets, &groups.wallets)?;
    Ok(Cells::of(mints, terms, markets, wallets))
}
