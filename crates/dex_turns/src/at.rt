//! An item when it takes turns: those of its markets, and then those of its wallets.

ghost use Rattle.std.specs.Prelude.{◌≡◌, ◌≤◌, ◌<◌, ◌+◌, [], false, length, vec_capacity};
ghost use Rattle.std.specs.List.{AllZip};
ghost use Rattle.dex_types.specs.Rows.{row_of};
ghost use Rattle.dex_types.specs.Wallets.{row_wallets};
ghost use Rattle.dex_script_types.specs.Places.{IsPlaced};
ghost use Rattle.dex_history.specs.Journal.{is_held};
ghost use Rattle.dex_world.specs.Lists.{AllThree};
ghost use Rattle.dex_world.specs.Places.{ArePlacesOf};
ghost use Rattle.dex_turns.specs.Bank.{IsBank};
ghost use Rattle.dex_turns.specs.Inside.{call_made, written_of};
ghost use Rattle.dex_turns.specs.Legs.{legs_written, one_made, two_made};
ghost use Rattle.dex_turns.specs.Submitted.{LegMarketGrows, MarketGrows};
ghost use Rattle.dex_turns.specs.Turns.{AreIdle, AreInHand, AreLegsAt, AreReady, AreRising, HasEntry, HaveGrown};
ghost use Rattle.dex_turns.specs.Turns.{HaveLegsTold, IsTold, IsWritten, MayEnterAt, left_of, leg_wallets, place_of};

use crate::acts::Acts;
use crate::alone::RowAlone;
use crate::bank::Bank;
use crate::legs::{SwapLegs, TwoMarkets, TwoRecords};
use crate::seat::WalletPasses;
use crate::stamped_record::StampedRecord;
use crate::turns::{first_of, leave_wallet, take_at, take_from_hand, take_wallet_at};
use crate::two_turns::{Entrance, TwoTurns, leave_at, take_two};
use dex_gate::Pass;
use dex_io::Pace;
use dex_journals::BankMarket;
use dex_locks::is_lower;
use dex_stamps::Stamp;
use std::sync::Wait;

/// A bank, and by what a lane waits there for turns.
#[derive(Clone, Copy)]
pub(crate) struct At<'a, R> {
    pub(crate) bank: &'a Bank,
    pub(crate) rt: &'a R,
}

impl<'a, R: Wait> At<'a, R> {
    // A row acts when it has the turn of its market.
    pub(crate) fn in_market<P: Pace>(
        &self,
        item: &RowAlone<'_, P>,
        markets: &mut Vec<Pass<BankMarket>>,
        wallets: &mut WalletPasses,
        last: &Stamp,
    ) -> StampedRecord
        // The row, its places and its passes are of this bank, and nothing is in hand.
        requires bank { IsBank self.now.bank.now }
        requires places { IsPlaced self.now.bank.now.script.start (row_of item.now.row.now) item.now.places.now }
        requires market { MayEnterAt self.now.bank.now (row_of item.now.row.now) markets.old.items
            item.now.places.now.market }
        requires markets { length markets.old.items ≡ length self.now.bank.now.script.start.markets }
        requires idle { AreIdle markets.old.items }
        requires passes { AreReady self.now.bank.now item.now.row.now.lane (row_wallets (row_of item.now.row.now))
            wallets.old.passes.items }
        requires hands { wallets.old.hands.items ≡ [] }
        requires room { 4 ≤ vec_capacity wallets.old.hands }

        // The row is told, later than the last of its lane.
        ensures own { is_held (call_made (item.now.row.now, result)).item ≡ false }
        ensures told { IsTold self.now.bank.now.script (call_made (item.now.row.now, result)) }
        ensures later { last.now.number < result.stamp.number }

        // Its market and its wallets have one entry more, and nothing is in hand again.
        ensures markets { AllThree (MarketGrows (row_of item.now.row.now) (call_made (item.now.row.now, result)))
            self.now.bank.now.script.start.markets markets.old.items markets.new.items }
        ensures passes { HaveGrown self.now.bank.now (row_wallets (row_of item.now.row.now))
            (written_of (item.now.row.now, result)) wallets.old.passes.items wallets.new.passes.items }
        ensures hands { wallets.new.hands.items ≡ [] }
        ensures room { vec_capacity wallets.old.hands ≤ vec_capacity wallets.new.hands }
    {
        let at = Entrance::at(self.bank, item.places.market);
        let (mut market, away, stamp) = take_at(self.rt, at.gate, markets, at.place, last);
        let others = &item.places.wallets.places;
        let made = self.with_wallets(others, item, &mut market, wallets, &stamp);
        leave_at(at.gate, markets, at.place, away, market);
        made
    }

    // Two legs act when they have the turns of their markets.
    pub(crate) fn in_markets<P: Pace>(
        &self,
        legs: &SwapLegs<'_, P>,
        markets: &mut Vec<Pass<BankMarket>>,
        wallets: &mut WalletPasses,
        last: &Stamp,
    ) -> TwoRecords
        // The legs, their places and their passes are of this bank, and nothing is in hand.
        requires placed { AreLegsAt self.now.bank.now.script (row_of legs.now.first.now)
            (row_of legs.now.second.now) legs.now.wallets }
        requires bank { IsBank self.now.bank.now }
        requires first { MayEnterAt self.now.bank.now (row_of legs.now.first.now) markets.old.items
            legs.now.first_market }
        requires second { MayEnterAt self.now.bank.now (row_of legs.now.second.now) markets.old.items
            legs.now.second_market }
        requires markets { length markets.old.items ≡ length self.now.bank.now.script.start.markets }
        requires idle { AreIdle markets.old.items }
        requires passes { AreReady self.now.bank.now legs.now.first.now.lane
            (leg_wallets (row_of legs.now.first.now) (row_of legs.now.second.now)) wallets.old.passes.items }
        requires hands { wallets.old.hands.items ≡ [] }
        requires room { 4 ≤ vec_capacity wallets.old.hands }

        // The legs are told, later than the last of their lane.
        ensures told { HaveLegsTold self.now.bank.now.script last.now.number (one_made legs.now.first.now result)
            (two_made legs.now.second.now result) }

        // Their markets and wallets have one entry more for each, and nothing is in hand again.
        ensures markets { AllThree (LegMarketGrows (row_of legs.now.first.now) (row_of legs.now.second.now)
            (one_made legs.now.first.now result) (two_made legs.now.second.now result))
            self.now.bank.now.script.start.markets markets.old.items markets.new.items }
        ensures passes { HaveGrown self.now.bank.now
            (leg_wallets (row_of legs.now.first.now) (row_of legs.now.second.now))
            (legs_written legs.now.first.now legs.now.second.now result)
            wallets.old.passes.items wallets.new.passes.items }
        ensures hands { wallets.new.hands.items ≡ [] }
        ensures room { vec_capacity wallets.old.hands ≤ vec_capacity wallets.new.hands }
    {
        let in_order = is_lower(legs.first.market, legs.second.market);
        let one = Entrance::at(self.bank, legs.first_market);
        let two = Entrance::at(self.bank, legs.second_market);
        let turns = take_two(self.rt, one, two, markets, in_order, last);
        let TwoTurns {
            markets: mut taken,
            first: away,
            second: away_next,
            stamp,
        } = turns;
        let made = self.with_wallets(&legs.wallets.places, legs, &mut taken, wallets, &stamp);
        let TwoMarkets {
            first: market,
            second: market_next,
        } = taken;
        leave_at(one.gate, markets, one.place, away, market);
        leave_at(two.gate, markets, two.place, away_next, market_next);
        made
    }

    // The item takes the turns of its wallets that are still to come, one after the other, acts, and leaves them.
    fn with_wallets<A: Acts>(
        &self,
        others: &[u16],
        item: &A,
        markets: &mut A::Markets,
        wallets: &mut WalletPasses,
        stamp: &Stamp,
    ) -> A::Made
        // The item and its passes are of this bank, the first of its wallets are in hand, and the others stand there.
        requires bank { IsBank self.now.bank.now }
        requires placed { A.placed item.now self.now.bank.now.script }
        requires rising { AreRising (A.named item.now) }
        requires ready { A.ready item.now markets.old }
        requires below { A.last item.now markets.old ≤ stamp.now.number }
        requires hands { AreInHand self.now.bank.now.script (A.named item.now)
            (left_of (A.named item.now) wallets.old.hands.items) wallets.old.hands.items }
        requires others { ArePlacesOf (place_of self.now.bank.now.script)
            (left_of (A.named item.now) wallets.old.hands.items) others.now }
        requires passes { AreReady self.now.bank.now (A.lane item.now)
            (left_of (A.named item.now) wallets.old.hands.items) wallets.old.passes.items }
        requires room { length wallets.old.hands.items + length others.now ≤ vec_capacity wallets.old.hands }

        // The item acts, later than all before it.
        ensures did { A.did item.now self.now.bank.now.script result markets.old markets.new }
        ensures written { IsWritten (A.lane item.now) stamp.now.number (A.written item.now result) }

        // Each wallet has one entry more, those in hand too.
        ensures passes { HaveGrown self.now.bank.now (left_of (A.named item.now) wallets.old.hands.items)
            (A.written item.now result) wallets.old.passes.items wallets.new.passes.items }
        ensures hands { AllZip (HasEntry (A.written item.now result)) wallets.old.hands.items wallets.new.hands.items }
        ensures room { vec_capacity wallets.old.hands ≤ vec_capacity wallets.new.hands }
    {
        match first_of(others) {
            Some(place) => {
                let gate = self.bank.wallet_gate(place);
                let (cell, trail, away) = take_wallet_at(self.rt, gate, &mut wallets.passes, place);
                let later = trail.later(stamp);
                wallets.hands.push_reserved(cell);
                let rest = &others[1..];
                let made = self.with_wallets(rest, item, markets, wallets, &later);
                let cell = take_from_hand(&mut wallets.hands);
                let own = item.stamp(&made);
                leave_wallet(gate, &mut wallets.passes[place], cell, trail, away, own);
                made
            }
            None => item.act(self.bank, markets, &mut wallets.hands, stamp),
        }
    }
}
