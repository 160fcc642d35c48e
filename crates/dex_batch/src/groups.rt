//! Groups of rows, markets and wallets: no row of one names a market or a wallet of another.

ghost use Rattle.std.specs.Prelude.{◌≡◌, ◌<◌, All, IfOk, IfSome, IsTrue, length};
ghost use Rattle.std.specs.List.{All as Each, AllZip};
ghost use Rattle.dex_batch.specs.Groups.{AreGroups, IsOfGroup, IsWalletOf};

use crate::links::Links;
use dex_types::{NoMemory, add};
use dex_world::RowPlaces;
use std::alloc::Global;

/// The group of each market and of each wallet by its place, how many groups there are, and how many rows the largest
/// component has.
#[derive(Drop)]
pub struct Groups {
    pub markets: Vec<usize>,
    pub wallets: Vec<usize>,
    pub count: usize,
    pub largest: usize,
}

impl Groups {
    /// Groups of what these rows link, of so many at most. The components are dealt to them by turns, the largest
    /// first.
    pub(crate) fn of(
        alloc: Global,
        places: &[RowPlaces],
        markets: usize,
        wallets: usize,
        most: usize,
    ) -> Result<Groups, NoMemory>
        ensures { IfOk result (AreGroups markets wallets) }
    {
        let links = Links::of(alloc, places, markets, wallets)?;
        let sizes = links.sizes(alloc)?;
        let count = components(&sizes).min(most).max(1);
        let of_markets = groups_of_markets(alloc, &links, &sizes, markets, count)?;
        let of_wallets = groups_of_wallets(alloc, &links, &of_markets, wallets, count)?;
        let largest = if links.is_one() {
            places.len()
        } else {
            largest(&sizes)
        };
        Ok(Groups {
            markets: of_markets,
            wallets: of_wallets,
            count,
            largest,
        })
    }

    /// The group of a row, where all that it names is of one.
    fn of_row(&self, places: &RowPlaces) -> Option<usize>
        ensures { IfSome result (IsOfGroup self.now.markets.items self.now.wallets.items places.now) }
    {
        let number = self.markets.get(places.market as usize).copied()?;
        if are_of(&self.wallets, &places.wallets.places, number) {
            Some(number)
        } else {
            None
        }
    }

    /// The groups of rows, where each is of one.
    pub(crate) fn of_rows(
        &self,
        alloc: Global,
        places: &[RowPlaces],
    ) -> Result<Option<Vec<usize>>, NoMemory>
        ensures { IfOk result (λ found. IfSome found (λ numbers.
            AllZip (IsOfGroup self.now.markets.items self.now.wallets.items) places.now numbers.items)) }
    {
        let mut numbers = Vec::with_capacity(alloc, places.len())?;
        for place in 0..places.len() {
            let row = places[place];
            match self.of_row(&row) {
                Some(number) => add(&mut numbers, number)?,
                None => return Ok(None),
            }
        }
        Ok(Some(numbers))
    }
}

/// Whether the wallet at a place is of this group, if one stands there.
fn is_of(numbers: &[usize], place: u16, number: usize) -> bool
    ensures { IsTrue result → IsWalletOf numbers.now number place }
{
    match numbers.get(place as usize) {
        Some(own) => *own == number,
        None => true,
    }
}

/// Whether the wallets at these places are of this group, as far as some stand there.
fn are_of(numbers: &[usize], places: &[u16; 4], number: usize) -> bool
    ensures { IsTrue result → Each (IsWalletOf numbers.now number) places.now }
{
    places.iter().all(|place| is_of(numbers, *place, number))
}

/// How many rows the largest component has.
fn largest(sizes: &[usize]) -> usize {
    sizes.iter().copied().max().unwrap_or(0)
}

/// How many components have rows.
fn components(sizes: &[usize]) -> usize {
    sizes.iter().filter(|size| **size > 0).count()
}

/// How many components come before that of a root: larger ones, and of its size those of lower roots.
fn rank(sizes: &[usize], root: usize) -> usize {
    let own = sizes.get(root).copied().unwrap_or(0);
    let mut rank = 0;
    for place in 0..sizes.len() {
        if sizes[place] > own || (sizes[place] == own && place < root) {
            rank = usize::saturating_add(rank, 1);
        }
    }
    rank
}

/// The groups of so many markets.
fn groups_of_markets(
    alloc: Global,
    links: &Links,
    sizes: &[usize],
    markets: usize,
    count: usize,
) -> Result<Vec<usize>, NoMemory>
    requires { 0 < count }
    ensures long { IfOk result (λ numbers. length numbers.items ≡ markets) }
    ensures within { IfOk result (λ numbers. All (λ number. number < count) numbers.items) }
{
    let mut numbers = Vec::new(alloc);
    for market in 0..markets {
        let root = links.root(market).unwrap_or(market);
        add(&mut numbers, rank(sizes, root) % count)?;
    }
    Ok(numbers)
}

/// The groups of so many wallets: those of the markets with which rows name them, and the first of one that no row
/// names.
fn groups_of_wallets(
    alloc: Global,
    links: &Links,
    of_markets: &[usize],
    wallets: usize,
    count: usize,
) -> Result<Vec<usize>, NoMemory>
    requires some { 0 < count }
    requires within { All (λ number. number < count) of_markets.now }
    ensures long { IfOk result (λ numbers. length numbers.items ≡ wallets) }
    ensures within { IfOk result (λ numbers. All (λ number. number < count) numbers.items) }
{
    let mut numbers = Vec::new(alloc);
    for wallet in 0..wallets {
        add(
            &mut numbers,
            group_of_wallet(links, of_markets, wallet, count),
        )?;
    }
    Ok(numbers)
}

/// The group of a wallet.
fn group_of_wallet(links: &Links, of_markets: &[usize], wallet: usize, count: usize) -> usize
    requires some { 0 < count }
    requires within { All (λ number. number < count) of_markets.now }
    ensures { result < count }
{
    match links.market_of(wallet) {
        Some(market) if market < of_markets.len() => of_markets[market],
        _ => 0,
    }
}
