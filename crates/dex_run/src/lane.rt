//! The items of one lane.

ghost use Rattle.std.specs.Prelude.{ℕ, ◌≡◌, ◌∷◌, List, length};
ghost use Rattle.dex_run.specs.LaneItems.{IsItemOf, IsRestAt};
ghost use Rattle.dex_run.specs.Running.{AreRowsOf, CanRun, HasRun};
ghost use Rattle.dex_turns.specs.Seats.{IsSeatOf};

use crate::index::is_swap;
use crate::stay::Stay;
use dex_act::PlacedRow;
use dex_gate::Door;
use dex_io::Pace;
use dex_lanes::Job;
use dex_script_types::RowList;
use dex_swap::swap_two;
use dex_turns::{Bank, LaneSeat};
use dex_world::RowPlaces;
use std::sync::Wait;

/// What all lanes look at: the bank with a door for each of its markets, all rows with their places, and where the
/// items of each lane begin.
#[derive(Clone, Copy)]
pub(crate) struct Lanes<'a> {
    pub(crate) bank: &'a Bank,
    pub(crate) doors: &'a [Door],
    pub(crate) rows: &'a RowList,
    pub(crate) places: &'a [RowPlaces],
    pub(crate) by_lane: &'a [Vec<usize>],
}

impl<'a> Lanes<'a> {
    /// The item that begins at a place acts: a row alone, or the two legs of a swap.
    fn submit_item<R: Wait, P: Pace>(&self, rt: &R, seat: &mut LaneSeat, place: usize, pace: &P)
        requires rows { AreRowsOf self.now.bank.now self.now.rows.now self.now.places.now }
        requires bank { IsSeatOf self.now.bank.now seat.old }
        requires item { IsItemOf seat.old.lane self.now.rows.now (length seat.old.calls) place }
        ensures bank { IsSeatOf self.now.bank.now seat.new }
        ensures lane { seat.new.lane ≡ seat.old.lane }
        ensures rest { (later : List ℕ) → IsRestAt self.now.rows.now seat.old (place ∷ later)
            → IsRestAt self.now.rows.now seat.new later }
    {
        let bank = self.bank;
        let rows = self.rows;
        let places = self.places;
        if is_swap(places, place) {
            let next = place + 1;
            let first = rows.at(place);
            let second = rows.at(next);
            let one = PlacedRow {
                row: first,
                places: &places[place],
            };
            let two = PlacedRow {
                row: second,
                places: &places[next],
            };
            swap_two(rt, bank, seat, &one, &two, pace);
        } else {
            let row = rows.at(place);
            let one = PlacedRow {
                row,
                places: &places[place],
            };
            bank.submit(rt, seat, &one, pace);
        }
    }

    /// The items of the seat's lane act, in their order.
    fn submit_all<R: Wait, P: Pace>(&self, rt: &R, seat: &mut LaneSeat, pace: &P)
        requires { CanRun self.now seat.old }
        ensures { HasRun self.now.bank.now seat.old seat.new }
    {
        let lane = seat.lane() as usize;
        let by_lane = self.by_lane;
        let own = &by_lane[lane];
        let mut stay = Stay::none();
        for item in 0..own.len() {
            stay.before(rt, self, own, item);
            self.submit_item(rt, seat, own[item], pace);
            stay.behind(self.doors, item);
        }
    }
}

/// A lane's items, as a job on a thread of its own.
#[derive(Drop)]
pub(crate) struct LaneJob<'a, R, P> {
    pub(crate) rt: &'a R,
    pub(crate) lanes: Lanes<'a>,
    pub(crate) seat: LaneSeat,
    pub(crate) pace: &'a P,
}

impl<'a, R: Wait, P: Pace> Job for LaneJob<'a, R, P> {
    ghost ready = { λ job. CanRun job.lanes job.seat };

    ghost ran = { λ before after. HasRun before.lanes.bank.now before.seat after.seat };

    fn run(&mut self) {
        let lanes = self.lanes;
        lanes.submit_all(self.rt, &mut self.seat, self.pace);
    }
}
