//! The items of a lane, under the turns of all that they act on.

ghost use Rattle.std.specs.Prelude.{◌≡◌, IfSome, Some};
ghost use Rattle.dex_types.specs.Rows.{row_of};
ghost use Rattle.dex_script_types.specs.Places.{IsPlaced, market_place};
ghost use Rattle.dex_turns.specs.Seats.{IsSeat, IsSeatOf};
ghost use Rattle.dex_turns.specs.Submitted.{AreNext, HasSubmitted, HaveSubmitted, IsNext};
ghost use Rattle.dex_turns.specs.Turns.{AreLegsAt};

use crate::alone::RowAlone;
use crate::at::At;
use crate::bank::Bank;
use crate::both::wallets_of_both;
use crate::legs::{SwapLegs, TwoRecords};
use crate::seat::LaneSeat;
use crate::stamped_record::StampedRecord;
use dex_act::AsRow;
use dex_io::Pace;
use dex_types::{Reply, Row};
use dex_world::RowPlaces;
use std::sync::Wait;

impl Bank {
    /// A row of the seat's lane acts, which is a whole item: it draws and waits for the turn of its market, and then of
    /// each wallet that it names, by rising address; it is decided and done or refused, its parcels move, and the turns
    /// are left, the wallets' and then the market's. Where the row comes without the places of these, they are looked
    /// up. It takes no memory.
    pub fn submit<R: Wait, W: AsRow, P: Pace>(
        &self,
        rt: &R,
        seat: &mut LaneSeat,
        row: &W,
        pace: &P,
    ) -> Reply
        requires seat { IsSeatOf self.now seat.old }
        requires row { IsNext (row_of (W.is row.now)) seat.old }
        requires placed { IfSome (W.at row.now) (IsPlaced self.now.script.start (row_of (W.is row.now))) }
        ensures submitted { HasSubmitted (row_of (W.is row.entry.now)) result seat.old seat.new }
        ensures bank { IsSeatOf self.now seat.new }
        ensures kept { IsSeat seat.new }
    {
        let places = self.outline.places_of(row);
        self.submit_at(rt, seat, row.row(), &places, pace)
    }

    // A row acts, where its places are at hand.
    fn submit_at<R: Wait, P: Pace>(
        &self,
        rt: &R,
        seat: &mut LaneSeat,
        row: &Row,
        places: &RowPlaces,
        pace: &P,
    ) -> Reply
        requires seat { IsSeatOf self.now seat.old }
        requires row { IsNext (row_of row.now) seat.old }
        requires places { IsPlaced self.now.script.start (row_of row.now) places.now }
        ensures submitted { HasSubmitted (row_of row.entry.now) result seat.old seat.new }
        ensures bank { IsSeatOf self.now seat.new }
        ensures kept { IsSeat seat.new }
    {
        let _outline = &self.outline;
        let at = At { bank: self, rt };
        let item = RowAlone { row, places, pace };
        let made = at.in_market(&item, &mut seat.markets, &mut seat.wallets, &seat.last);
        seat.calls = seat.calls.and(row, &made);
        let StampedRecord { reply, stamp, .. } = made;
        seat.last = stamp;
        reply
    }

    /// The two legs of a swap of the seat's lane act, both or neither: they draw and wait for the turns of their
    /// markets, by rising address, and then of all wallets that they name, by rising address; both are looked at and
    /// decided before either acts; where neither would be refused both act, and else each that would not be refused is
    /// held back; and the turns are left, the wallets' and then the markets'. Where the legs come without the places of
    /// these, they are looked up. It takes no memory.
    pub fn submit_two<R: Wait, W: AsRow, P: Pace>(
        &self,
        rt: &R,
        seat: &mut LaneSeat,
        first: &W,
        second: &W,
        pace: &P,
    ) -> (Reply, Reply)
        requires seat { IsSeatOf self.now seat.old }
        requires legs { AreNext (row_of (W.is first.now)) (row_of (W.is second.now)) seat.old }
        requires first { IfSome (W.at first.now) (IsPlaced self.now.script.start (row_of (W.is first.now))) }
        requires second { IfSome (W.at second.now) (IsPlaced self.now.script.start (row_of (W.is second.now))) }
        ensures submitted { HaveSubmitted (row_of (W.is first.entry.now)) (row_of (W.is second.entry.now)) result
            seat.old seat.new }
        ensures bank { IsSeatOf self.now seat.new }
        ensures kept { IsSeat seat.new }
    {
        let one = self.outline.places_of(first);
        let two = self.outline.places_of(second);
        let row = first.row();
        let next = second.row();
        let legs = SwapLegs {
            first: row,
            second: next,
            first_market: one.market,
            second_market: two.market,
            wallets: wallets_of_both(row, next, &one, &two),
            pace,
        };
        self.submit_legs(rt, seat, &legs)
    }

    // Two legs act, where their places are at hand.
    fn submit_legs<R: Wait, P: Pace>(
        &self,
        rt: &R,
        seat: &mut LaneSeat,
        legs: &SwapLegs<'_, P>,
    ) -> (Reply, Reply)
        requires seat { IsSeatOf self.now seat.old }
        requires legs { AreNext (row_of legs.now.first.now) (row_of legs.now.second.now) seat.old }
        requires placed { AreLegsAt self.now.script (row_of legs.now.first.now) (row_of legs.now.second.now)
            legs.now.wallets }
        requires first { market_place legs.now.first.now.market self.now.script.start.markets
            ≡ Some legs.now.first_market }
        requires second { market_place legs.now.second.now.market self.now.script.start.markets
            ≡ Some legs.now.second_market }
        ensures submitted { HaveSubmitted (row_of legs.now.first.now) (row_of legs.now.second.now) result
            seat.old seat.new }
        ensures bank { IsSeatOf self.now seat.new }
        ensures kept { IsSeat seat.new }
    {
        let _outline = &self.outline;
        let at = At { bank: self, rt };
        let made = at.in_markets(legs, &mut seat.markets, &mut seat.wallets, &seat.last);
        let TwoRecords {
            first: one,
            second: two,
        } = made;
        seat.calls = seat.calls.and(legs.first, &one).and(legs.second, &two);
        let StampedRecord { reply, stamp, .. } = one;
        seat.last = stamp;
        (reply, two.reply)
    }
}
