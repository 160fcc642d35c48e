//! For how long a lane stays behind the doors of its items' markets. This is about time alone: each item takes all its
//! turns by itself, with a door or without, so no clause speaks of it.
//!
//! A lane whose next items all act on the same market, or all on the same two, comes in at the doors of these, does up
//! to `MOST` items there, and goes out again. Meanwhile other such lanes sleep, and no turn of a market passes from one
//! processor to another. So a door holds back but items on its market, while each item behind it acts on that market.
//!
//! Doors are taken by rising place, and between items, where a lane has no turn. So who waits at a door has but doors
//! of lower places, and no lanes wait in a circle.

use crate::index::is_swap;
use crate::lane::Lanes;
use dex_gate::Door;
use dex_types::{NoMemory, add};
use dex_world::RowPlaces;
use std::alloc::Global;
use std::sync::Wait;

/// How many items a lane may do before it lets others in.
const MOST: usize = 1024;
/// Fewer items are not worth a door.
const FEW: usize = 32;

/// The markets of an item: one, or two by rising place. Of one, both places are its own.
#[derive(Clone, Copy)]
struct Markets {
    lower: usize,
    higher: usize,
}

/// The markets of the item that begins at a place, where one does.
fn markets_of(places: &[RowPlaces], place: usize) -> Option<Markets> {
    let first = places.get(place)?.market as usize;
    let second = if place < places.len() && is_swap(places, place) {
        places.get(place.wrapping_add(1))?.market as usize
    } else {
        first
    };
    Some(Markets {
        lower: first.min(second),
        higher: first.max(second),
    })
}

/// The markets of an item of a lane, where it has this many. `own` holds the places at which its items begin, here and
/// below.
fn markets_at(lanes: &Lanes<'_>, own: &[usize], item: usize) -> Option<Markets> {
    markets_of(lanes.places, *own.get(item)?)
}

/// Whether an item of a lane acts on just these markets.
fn acts_on(lanes: &Lanes<'_>, own: &[usize], item: usize, markets: Markets) -> bool {
    match markets_at(lanes, own, item) {
        Some(other) => other.lower == markets.lower && other.higher == markets.higher,
        None => false,
    }
}

/// A door for each market. Asks memory.
pub(crate) fn doors_for(alloc: Global, markets: usize) -> Result<Vec<Door>, NoMemory> {
    let mut doors = Vec::new(alloc);
    for _ in 0..markets {
        add(&mut doors, Door::new())?;
    }
    Ok(doors)
}

/// Items of a lane up to one, and the markets behind whose doors they are done, if they are.
#[derive(Drop)]
pub(crate) struct Stay {
    until: usize,
    markets: Option<Markets>,
}

impl Stay {
    /// No items yet.
    pub(crate) fn none() -> Stay {
        Stay {
            until: 0,
            markets: None,
        }
    }

    /// The items from one on that act on the same markets as this one.
    fn from(lanes: &Lanes<'_>, own: &[usize], first: usize) -> Stay {
        let mut until = first.wrapping_add(1);
        let Some(markets) = markets_at(lanes, own, first) else {
            return Stay {
                until,
                markets: None,
            };
        };
        for _ in 1..MOST {
            if !acts_on(lanes, own, until, markets) {
                break;
            }
            until = until.wrapping_add(1);
        }
        let worth = until.wrapping_sub(first) >= FEW;
        Stay {
            until,
            markets: if worth { Some(markets) } else { None },
        }
    }

    /// Before an item: comes in where a stay begins with it.
    pub(crate) fn before<R: Wait>(
        &mut self,
        rt: &R,
        lanes: &Lanes<'_>,
        own: &[usize],
        item: usize,
    ) {
        if self.until <= item {
            *self = Stay::from(lanes, own, item);
            self.come_in(rt, lanes.doors);
        }
    }

    /// Comes in at the doors of its markets.
    fn come_in<R: Wait>(&self, rt: &R, doors: &[Door]) {
        if let Some(Markets { lower, higher }) = self.markets {
            come_in_at(rt, doors, lower);
            if higher != lower {
                come_in_at(rt, doors, higher);
            }
        }
    }

    /// After an item: goes out where the stay ends with it.
    pub(crate) fn behind(&self, doors: &[Door], item: usize) {
        if item.wrapping_add(1) != self.until {
            return;
        }
        if let Some(Markets { lower, higher }) = self.markets {
            if higher != lower {
                go_out_at(doors, higher);
            }
            go_out_at(doors, lower);
        }
    }
}

/// Comes in at the door of a market.
fn come_in_at<R: Wait>(rt: &R, doors: &[Door], market: usize) {
    if let Some(door) = doors.get(market) {
        door.come_in(rt);
    }
}

/// Goes out at the door of a market.
fn go_out_at(doors: &[Door], market: usize) {
    if let Some(door) = doors.get(market) {
        door.go_out();
    }
}
