//! A row alone, under the turns of all that it acts on.

ghost use Rattle.dex_types.specs.Rows.{row_of};
ghost use Rattle.dex_types.specs.Wallets.{row_wallets};
ghost use Rattle.dex_script_types.specs.Places.{IsPlaced};
ghost use Rattle.dex_turns.specs.Inside.{call_made, written_of};
ghost use Rattle.dex_turns.specs.Turns.{HasRowActed, MayCall};

use crate::acts::Acts;
use crate::bank::Bank;
use crate::stamped_record::StampedRecord;
use dex_act::{RowAt, WalletPlaces};
use dex_io::Pace;
use dex_journals::BankMarket;
use dex_stamps::Stamp;
use dex_types::Row;
use dex_wallet::WalletCell;
use dex_world::RowPlaces;

/// A row that is a whole item.
#[derive(Drop)]
pub(crate) struct RowAlone<'a, P> {
    pub(crate) row: &'a Row,
    pub(crate) places: &'a RowPlaces,
    pub(crate) pace: &'a P,
}

impl<'a, P: Pace> Acts for RowAlone<'a, P> {
    type Markets = BankMarket;

    type Made = StampedRecord;

    ghost lane = { λ it. it.row.now.lane };

    ghost named = { λ it. row_wallets (row_of it.row.now) };

    ghost placed = { λ it script. IsPlaced script.start (row_of it.row.now) it.places.now };

    ghost ready = { λ it market. MayCall (row_of it.row.now) market };

    ghost last = { λ it market. market.last };

    ghost written = { λ it made. written_of (it.row.now, made) };

    ghost did = { λ it script made before after.
        HasRowActed script (call_made (it.row.now, made)) before after };

    fn act(
        &self,
        bank: &Bank,
        market: &mut BankMarket,
        hands: &mut Vec<WalletCell>,
        stamp: &Stamp,
    ) -> StampedRecord {
        self.pace.inside(self.row.lane, self.row.number);
        let asking = RowAt {
            row: self.row,
            places: WalletPlaces::in_hand(&self.places.wallets),
        };
        let stamp = stamp.next();
        let done = market.step(hands, bank.terms(), &asking, &stamp);
        StampedRecord::of(done, stamp)
    }

    fn stamp<'m>(&self, made: &'m StampedRecord) -> &'m Stamp {
        &made.stamp
    }
}
