//! Labels of markets and wallets, made one where rows join them.

ghost use Rattle.std.specs.Prelude.{◌≡◌, All, length, map};
ghost use Rattle.dex_parts.specs.Joins.{IsWithin, all_joined, joined, leg_links, links_of, place_links};
ghost use Rattle.dex_parts.specs.Joins.{relabelled, row_links};

use dex_world::RowPlaces;

/// The place at which no wallet stands.
const NO_WALLET: u16 = u16::MAX;

/// The label, where one is taken for another.
fn relabelled_as(label: u32, from: u32, to: u32) -> u32
    ensures { result ≡ relabelled from to label }
{
    if label == from { to } else { label }
}

/// Takes one label for another, wherever it stands.
fn relabel(labels: &mut [u32], from: u32, to: u32)
    ensures { labels.new ≡ map (relabelled from to) labels.old }
{
    for place in 0..labels.len() {
        let label = relabelled_as(labels[place], from, to);
        labels[place] = label;
    }
}

/// Joins what stands at two places: all that have the higher of their labels get the lower one.
fn join(labels: &mut [u32], one: usize, other: usize)
    requires within { IsWithin (length labels.old) (one, other) }
    ensures { labels.new ≡ joined labels.old (one, other) }
{
    let (first, second) = (labels[one], labels[other]);
    if first < second {
        relabel(labels, second, first);
    } else if second < first {
        relabel(labels, first, second);
    }
}

/// Joins a market with the wallet at a place, if one stands there. Wallets stand behind so many markets.
fn join_wallet(labels: &mut [u32], markets: u16, market: u16, place: u16)
    requires within { All (IsWithin (length labels.old)) (place_links markets market place) }
    ensures { labels.new ≡ all_joined labels.old (place_links markets market place) }
{
    if place < NO_WALLET {
        join(labels, market as usize, markets as usize + place as usize);
    }
}

/// Joins the market of a row with each wallet that it names.
fn join_row(labels: &mut [u32], markets: u16, at: &RowPlaces)
    requires within { All (IsWithin (length labels.old)) (row_links markets at.now) }
    ensures { labels.new ≡ all_joined labels.old (row_links markets at.entry.now) }
{
    let mut left: &[u16] = &at.wallets.places;
    'wallets: while let Some((place, others)) = left.split_first() {
        join_wallet(labels, markets, at.market, *place);
        left = others;
    }
}

/// Joins the markets of a swap's legs: those of a row and the one behind it, if that has its number.
fn join_legs(labels: &mut [u32], at: &RowPlaces, others: &[RowPlaces])
    requires within { All (IsWithin (length labels.old)) (leg_links at.now others.now) }
    ensures { labels.new ≡ all_joined labels.old (leg_links at.entry.now others.entry.now) }
{
    if let Some(next) = others.first() {
        if at.number == next.number {
            join(labels, at.market as usize, next.market as usize);
        }
    }
}

/// Joins all that rows at these places join.
pub fn join_rows(labels: &mut [u32], markets: u16, places: &[RowPlaces])
    requires within { All (IsWithin (length labels.old)) (links_of markets places.now) }
    ensures { labels.new ≡ all_joined labels.old (links_of markets places.entry.now) }
{
    let mut left = places;
    'rows: while let Some((at, others)) = left.split_first() {
        join_row(labels, markets, at);
        join_legs(labels, at, others);
        left = others;
    }
}
