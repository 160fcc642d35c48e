//! The two legs of a swap, under the turns of all that they act on.

ghost use Rattle.std.specs.Prelude.{max};
ghost use Rattle.dex_types.specs.Rows.{row_of};
ghost use Rattle.dex_turns.specs.Legs.{legs_written, one_made, two_made};
ghost use Rattle.dex_turns.specs.Turns.{AreLegsAt, HaveLegsActed, MayCallBoth, leg_wallets};

use crate::acts::Acts;
use crate::bank::Bank;
use crate::stamped_record::StampedRecord;
use dex_act::{Legs, RowAt, WalletPlaces};
use dex_io::Pace;
use dex_journals::BankMarket;
use dex_stamps::Stamp;
use dex_types::Row;
use dex_wallet::WalletCell;
use dex_world::RowWallets;

/// The markets of the legs.
pub(crate) struct TwoMarkets {
    pub(crate) first: BankMarket,
    pub(crate) second: BankMarket,
}

/// What is recorded of the legs.
#[derive(Drop)]
pub(crate) struct TwoRecords {
    pub(crate) first: StampedRecord,
    pub(crate) second: StampedRecord,
}

/// The two legs of a swap, where their markets stand, and where their wallets do, together, those of the second as if
/// they were discount and referrer of the first.
#[derive(Drop)]
pub(crate) struct SwapLegs<'a, P> {
    pub(crate) first: &'a Row,
    pub(crate) second: &'a Row,
    pub(crate) first_market: u16,
    pub(crate) second_market: u16,
    pub(crate) wallets: RowWallets,
    pub(crate) pace: &'a P,
}

impl<'a, P: Pace> Acts for SwapLegs<'a, P> {
    type Markets = TwoMarkets;

    type Made = TwoRecords;

    ghost lane = { λ it. it.first.now.lane };

    ghost named = { λ it. leg_wallets (row_of it.first.now) (row_of it.second.now) };

    ghost placed = { λ it script. AreLegsAt script (row_of it.first.now) (row_of it.second.now) it.wallets };

    ghost ready = { λ it markets. MayCallBoth (row_of it.first.now) (row_of it.second.now) markets };

    ghost last = { λ it markets. max markets.first.last markets.second.last };

    ghost written = { λ it made. legs_written it.first.now it.second.now made };

    ghost did = { λ it script made before after.
        HaveLegsActed script (one_made it.first.now made) (two_made it.second.now made) before after };

    fn act(
        &self,
        bank: &Bank,
        markets: &mut TwoMarkets,
        hands: &mut Vec<WalletCell>,
        stamp: &Stamp,
    ) -> TwoRecords {
        self.pace.inside(self.first.lane, self.first.number);
        let at = WalletPlaces::in_hand(&self.wallets);
        let legs = Legs {
            first: RowAt {
                row: self.first,
                places: at,
            },
            second: RowAt {
                row: self.second,
                places: WalletPlaces {
                    coin: at.discount,
                    pc: at.referrer,
                    ..at
                },
            },
        };
        let one_stamp = stamp.next();
        let two_stamp = stamp.next();
        let TwoMarkets { first, second } = markets;
        let (one, two) = BankMarket::step_two(
            first,
            second,
            hands,
            bank.terms(),
            &legs,
            &one_stamp,
        );
        TwoRecords {
            first: StampedRecord::of(one, one_stamp),
            second: StampedRecord::of(two, two_stamp),
        }
    }

    fn stamp<'m>(&self, made: &'m TwoRecords) -> &'m Stamp {
        &made.first.stamp
    }
}
