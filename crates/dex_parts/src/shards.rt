//! The shards into which a script falls.

ghost use Rattle.std.specs.Prelude.{◌≡◌, ◌+◌, ◌<◌, ◌++◌, ◌∷◌, [], All, IfOk, OnOk, length, map};
ghost use Rattle.dex_world.specs.declared.places.RowPlaces.{RowPlaces as RowPlacesOf};
ghost use Rattle.dex_parts.specs.Joins.{IsWithin, links_of};
ghost use Rattle.dex_parts.specs.Numbers.{in_market, labels_of, market_shards, numbers_to, row_shards, wallet_shards};
ghost use Rattle.dex_parts.specs.Sharded.{AreShardsOf};

use crate::joins::join_rows;
use dex_script_types::Script;
use dex_types::NoMemory;
use dex_world::RowPlaces;
use std::alloc::Global;

/// The shard of each market, wallet and row of a script. A shard is named by the place of its first market. Rows of
/// different shards share no market and no wallet.
#[derive(Debug, Drop)]
pub struct Shards {
    /// Of each market, in declared order.
    pub markets: Vec<u32>,
    /// Of each wallet, in declared order. One that no row names is of the first shard.
    pub wallets: Vec<u32>,
    /// Of each row, in its order.
    pub rows: Vec<u32>,
}

/// One number more.
fn push_number(numbers: &mut Vec<u32>, number: u32) -> Result<(), NoMemory>
    ensures { OnOk result (numbers.new.items ≡ numbers.old.items ++ number ∷ []) }
{
    match numbers.push(number) {
        Ok(()) => Ok(()),
        Err(_) => Err(NoMemory),
    }
}

/// The first so many numbers. Asks memory.
fn labels_to(alloc: Global, count: u32) -> Result<Vec<u32>, NoMemory>
    ensures { IfOk result (λ labels. labels.items ≡ numbers_to count) }
{
    let mut labels = Vec::new(alloc);
    for number in 0..count {
        push_number(&mut labels, number)?;
    }
    Ok(labels)
}

/// The shard of a label: a market's place names one, and any other label is of the first.
fn shard_by(label: u32, markets: u16) -> u32
    ensures { result ≡ in_market markets label }
{
    if label < markets as u32 { label } else { 0 }
}

/// The shards of labels. Asks memory.
fn shards_by(alloc: Global, labels: &[u32], markets: u16) -> Result<Vec<u32>, NoMemory>
    ensures { IfOk result (λ shards. shards.items ≡ map (in_market markets) labels.now) }
{
    let mut shards = Vec::new(alloc);
    for label in labels {
        push_number(&mut shards, shard_by(*label, markets))?;
    }
    Ok(shards)
}

/// The shards of rows: those of their markets. Asks memory.
fn shards_of_rows(
    alloc: Global,
    markets: &[u32],
    places: &[RowPlaces],
) -> Result<Vec<u32>, NoMemory>
    requires within { All (λ (at : RowPlacesOf). at.market < length markets.now) places.now }
    ensures { IfOk result (λ shards. shards.items ≡ row_shards markets.now places.now) }
{
    let mut shards = Vec::new(alloc);
    for at in places {
        push_number(&mut shards, markets[at.market as usize])?;
    }
    Ok(shards)
}

/// The labels of so many markets, and of so many wallets behind them, where rows at these places join them. Asks
/// memory.
fn labels_among(
    alloc: Global,
    markets: u16,
    wallets: u16,
    places: &[RowPlaces],
) -> Result<Vec<u32>, NoMemory>
    requires joined { All (IsWithin (markets + wallets)) (links_of markets places.now) }
    ensures { IfOk result (λ labels. labels.items ≡ labels_of markets wallets places.now) }
{
    let mut labels = labels_to(alloc, markets as u32 + wallets as u32)?;
    join_rows(&mut labels, markets, places);
    Ok(labels)
}

/// The shards of so many markets and wallets, and of rows on them. Asks memory.
fn shards_among(
    alloc: Global,
    markets: u16,
    wallets: u16,
    places: &[RowPlaces],
) -> Result<Shards, NoMemory>
    requires joined { All (IsWithin (markets + wallets)) (links_of markets places.now) }
    requires on { All (λ (at : RowPlacesOf). at.market < markets) places.now }
    ensures of_markets { IfOk result (λ shards. shards.markets.items ≡ market_shards markets wallets places.now) }
    ensures of_wallets { IfOk result (λ shards. shards.wallets.items ≡ wallet_shards markets wallets places.now) }
    ensures of_rows { IfOk result (λ shards. shards.rows.items ≡ row_shards shards.markets.items places.now) }
{
    let labels = labels_among(alloc, markets, wallets, places)?;
    let (labels_of_markets, labels_of_wallets) = labels.split_at(markets as usize);
    let of_markets = shards_by(alloc, labels_of_markets, markets)?;
    let of_wallets = shards_by(alloc, labels_of_wallets, markets)?;
    let rows = shards_of_rows(alloc, &of_markets, places)?;
    Ok(Shards {
        markets: of_markets,
        wallets: of_wallets,
        rows,
    })
}

/// The shards into which a script falls, as many as there can be. Asks memory.
pub fn shards_of(alloc: Global, script: &Script) -> Result<Shards, NoMemory>
    ensures { IfOk result (λ shards. AreShardsOf script.now shards.markets.items shards.wallets.items
        shards.rows.items) }
{
    let markets = script.start.markets.len() as u16;
    let wallets = script.start.wallets.len() as u16;
    let shards = shards_among(alloc, markets, wallets, &script.places)?;
    Ok(shards)
}
