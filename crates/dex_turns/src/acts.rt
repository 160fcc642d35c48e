//! What is done under the turns of its markets and wallets: a row alone, or the two legs of a swap.

ghost use Rattle.std.specs.Prelude.{◌≡◌, ◌≤◌, ℕ, List, [], vec_capacity};
ghost use Rattle.std.specs.List.{AllZip};
ghost use Rattle.dex_types.specs.declared.addresses.Address.{Address};
ghost use Rattle.dex_script_types.specs.PlainScript.{PlainScript};
ghost use Rattle.dex_turns.specs.Submitted.{Written};
ghost use Rattle.dex_turns.specs.Turns.{AreInHand, HasEntry, IsWritten};

use crate::bank::Bank;
use dex_stamps::Stamp;
use dex_wallet::WalletCell;

/// What acts when it has the turns of its markets, whose values it is handed, and of all wallets that its rows name.
pub(crate) trait Acts {
    /// The markets.
    type Markets;
    /// What is recorded of the rows.
    type Made;

    /// The lane of the rows.
    ghost lane: { Self → ℕ };

    /// The wallets that they name, in the order in which their turns are taken.
    ghost named: { Self → List Address };

    /// What is known of where its wallets stand among those of a script.
    ghost placed: { Self → PlainScript → Type 0 };

    /// What the markets need.
    ghost ready: { Self → Self.Markets → Type 0 };

    /// The greatest stamp of the markets.
    ghost last: { Self → Self.Markets → ℕ };

    /// What it writes into the journals of wallets.
    ghost written: { Self → Self.Made → Written };

    /// What it did to the markets.
    ghost did: { Self → PlainScript → Self.Made → Self.Markets → Self.Markets → Type 0 };

    /// Acts, with the cells of all wallets in hand, in their order. Its stamp is above this one, which no stamp of a
    /// market or wallet is above.
    fn act(
        &self,
        bank: &Bank,
        markets: &mut Self::Markets,
        hands: &mut Vec<WalletCell>,
        stamp: &Stamp,
    ) -> Self::Made
        requires placed { placed self.now bank.now.script }
        requires ready { ready self.now markets.old }
        requires below { last self.now markets.old ≤ stamp.now.number }
        requires hands { AreInHand bank.now.script (named self.now) [] hands.old.items }
        ensures did { did self.now bank.now.script result markets.old markets.new }
        ensures written { IsWritten (lane self.now) stamp.now.number (written self.now result) }
        ensures hands { AllZip (HasEntry (written self.now result)) hands.old.items hands.new.items }
        ensures room { vec_capacity hands.old ≤ vec_capacity hands.new };

    /// The stamp of what it made.
    fn stamp<'m>(&self, made: &'m Self::Made) -> &'m Stamp
        ensures { result.now.number ≡ (written self.now made.now).stamp };
}
