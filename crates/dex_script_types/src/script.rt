//! A script.

ghost use Rattle.std.specs.Prelude.{◌≡◌, ◌<◌, ◌^◌, length};
ghost use Rattle.dex_world.specs.Items.{items_of};
ghost use Rattle.dex_script_types.specs.Places.{items_at};

use crate::row_list::RowList;
use dex_types::{Accounts, Limits, Program};
use dex_world::RowPlaces;
use std::marker::Model;

/// A script: the accounts with which it starts, its instruction rows in their order, how many lanes it has (the highest
/// lane and 1, or 1 where there is no row), and the program that runs. Of each script its accounts are accepted, market
/// by market those of a sound market, and each mint conserved; its rows are in order, and of these accounts, at their
/// places. All are within the limits.
#[derive(Debug, Drop)]
pub struct Script {
    pub start: Accounts,
    pub rows: RowList,
    /// Of each row its number, its lane, and where its market and its wallets stand among those of `start`.
    pub places: Vec<RowPlaces>,
    pub lanes: u32,
    pub program: Program,
    /// The limits within which it was read.
    pub limits: Limits,
}

impl Model for Script {
    ghost use Rattle.dex_script_types.specs.PlainScript.{PlainScript};
    ghost use Rattle.dex_script_types.specs.ScriptInside.{IsKept, script_inside};

    ghost Value = { PlainScript };

    ghost view = { script_inside };

    ghost invariant = { IsKept };
}

impl Script {
    /// How many items there are: neighbours of one number are one item.
    pub fn items(&self) -> u32
        ensures { result ≡ length (items_of self.now.rows) }
    {
        items_among(&self.places)
    }
}

/// How many items the rows of these places are.
fn items_among(places: &[RowPlaces]) -> u32
    requires few { items_at places.now < 2 ^ 32 }
    ensures { result ≡ items_at places.now }
{
    let mut count = 0;
    let mut last = None;
    for place in 0..places.len() {
        let number = places[place].number;
        if last != Some(number) {
            count += 1;
        }
        last = Some(number);
    }
    count
}
