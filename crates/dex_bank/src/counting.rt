//! How many rows name each market and each wallet, counted in one pass over what stands beside the rows.

ghost use Rattle.std.specs.Prelude.{◌≡◌, ◌==◌, ℕ, IfOk, map};
ghost use Rattle.dex_types.specs.Accounts.{accounts_of};
ghost use Rattle.dex_types.specs.Rows.{row_of};
ghost use Rattle.dex_types.specs.declared.limits.Limits.{Limits};
ghost use Rattle.dex_script_types.specs.Facts.{IsStart};
ghost use Rattle.dex_script_types.specs.Places.{ArePlaced};
ghost use Rattle.dex_bank.specs.Counts.{AreCounted, HaveSpare, one, times_told};
ghost use Rattle.dex_bank.specs.Opened as first;

use dex_script_types::RowList;
use dex_types::{Accounts, NoMemory};
use dex_world::RowPlaces;
use std::alloc::Global;

/// One more at a place, if there is such a place.
fn count(counts: &mut [usize], told: u16)
    requires { HaveSpare 1 counts.old }
    ensures { AreCounted (λ (place : ℕ). one (place == told)) counts.old counts.new }
{
    let place = told as usize;
    if place < counts.len() {
        counts[place] += 1;
    }
}

/// One more at each of these places that there is.
fn count_each(counts: &mut [usize], told: &[u16; 4])
    requires { HaveSpare 4 counts.old }
    ensures { AreCounted (λ (place : ℕ). times_told place told.entry.now) counts.old counts.new }
{
    for i in 0..told.len() {
        count(counts, told[i]);
    }
}

/// How many rows are on each market, and how many name each wallet.
#[derive(Drop)]
pub(crate) struct RowCounts {
    pub(crate) markets: Vec<usize>,
    pub(crate) wallets: Vec<usize>,
}

/// How many rows are on each of the markets, and name each of the wallets, with which they start.
pub(crate) fn row_counts(
    alloc: Global,
    start: &Accounts,
    rows: &RowList,
    places: &[RowPlaces],
) -> Result<RowCounts, NoMemory>
    requires start { (limits : Limits) × IsStart limits (accounts_of start.now) }
    requires places { ArePlaced (accounts_of start.now) (map row_of rows.now) places.now }
    ensures markets { IfOk result (λ counts. counts.markets.items
        ≡ first.market_rooms (map row_of rows.now) (accounts_of start.now).markets) }
    ensures wallets { IfOk result (λ counts. counts.wallets.items
        ≡ first.wallet_rooms (map row_of rows.now) (accounts_of start.now).wallets) }
{
    let mut markets = Vec::from_elem(alloc, 0, start.markets.len())?;
    let mut wallets = Vec::from_elem(alloc, 0, start.wallets.len())?;
    for i in 0..rows.len() {
        let at = &places[i];
        count(&mut markets, at.market);
        count_each(&mut wallets, &at.wallets.places);
    }
    Ok(RowCounts { markets, wallets })
}
