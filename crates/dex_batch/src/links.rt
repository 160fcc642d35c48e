//! What the rows of a window link.

use dex_types::NoMemory;
use dex_world::RowPlaces;
use std::alloc::Global;

/// The place of no market.
const NONE: usize = usize::MAX;

/// Of each market the root of its component, which is one of its markets, and how many rows are on it. Of each wallet a
/// market of its component, where a row names it. And how many components there are. What it says is a proposal: no
/// clause speaks of it.
#[derive(Drop)]
pub(crate) struct Links {
    roots: Vec<usize>,
    rows: Vec<usize>,
    wallets: Vec<usize>,
    components: usize,
}

impl Links {
    /// What these rows link, among so many markets and wallets. Rows behind those that link all markets are not looked
    /// at.
    pub(crate) fn of(
        alloc: Global,
        places: &[RowPlaces],
        markets: usize,
        wallets: usize,
    ) -> Result<Links, NoMemory> {
        let mut links = Links {
            roots: Vec::new(alloc),
            rows: vec![in alloc; 0; markets]?,
            wallets: vec![in alloc; NONE; wallets]?,
            components: markets,
        };
        for place in 0..markets {
            links.roots.push(place)?;
        }
        for row in places {
            if links.is_one() {
                break;
            }
            links.add(row);
        }
        Ok(links)
    }

    // A row links its market and each wallet that it names.
    fn add(&mut self, row: &RowPlaces) {
        let market = row.market as usize;
        if let Some(rows) = self.rows.get_mut(market) {
            *rows = usize::saturating_add(*rows, 1);
        }
        for wallet in row.wallets.places.iter() {
            self.link(market, *wallet);
        }
    }

    // A row on a market names a wallet.
    fn link(&mut self, market: usize, wallet: u16) {
        if let Some(known) = self.wallets.get_mut(wallet as usize) {
            let other = *known;
            *known = market;
            self.unite(other, market);
        }
    }

    // The components of two markets become one.
    fn unite(&mut self, one: usize, other: usize) {
        if let (Some(from), Some(to)) = (self.root(one), self.root(other)) {
            if from != to {
                self.rename(from, to);
                self.components = self.components.saturating_sub(1);
            }
        }
    }

    // One root takes the place of another.
    fn rename(&mut self, from: usize, to: usize) {
        for root in self.roots.iter_mut() {
            if *root == from {
                *root = to;
            }
        }
    }

    /// Whether all markets are of one component.
    pub(crate) fn is_one(&self) -> bool {
        self.components < 2
    }

    /// The root of a market's component.
    pub(crate) fn root(&self, market: usize) -> Option<usize> {
        self.roots.get(market).copied()
    }

    /// A market of the component of a wallet that a row names.
    pub(crate) fn market_of(&self, wallet: usize) -> Option<usize> {
        self.wallets.get(wallet).copied()
    }

    /// By the places of markets, how many rows each component has: at its root.
    pub(crate) fn sizes(&self, alloc: Global) -> Result<Vec<usize>, NoMemory> {
        let mut sizes = vec![in alloc; 0; self.rows.len()]?;
        for (root, rows) in self.roots.iter().zip(self.rows.iter()) {
            if let Some(size) = sizes.get_mut(*root) {
                *size = usize::saturating_add(*size, *rows);
            }
        }
        Ok(sizes)
    }
}
