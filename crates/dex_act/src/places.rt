//! Where the wallets of a row stand.

ghost use Rattle.std.specs.Prelude.{◌≡◌};
ghost use Rattle.dex_act.specs.Wallets.{hand_places, wallet_places};

use dex_types::{Row, Seen};
use dex_world::RowWallets;

/// Where the wallets that a row names stand among cells. The place of a role that names no wallet says nothing.
#[derive(Clone, Copy, Debug, PartialEq, Eq)]
pub struct WalletPlaces {
    pub coin: usize,
    pub pc: usize,
    pub discount: usize,
    pub referrer: usize,
}

impl WalletPlaces {
    /// Those among the cells of all wallets with which a script starts.
    pub fn of(wallets: &RowWallets) -> WalletPlaces
        ensures { result ≡ wallet_places wallets.now }
    {
        WalletPlaces {
            coin: wallets.at(wallets.coin) as usize,
            pc: wallets.at(wallets.pc) as usize,
            discount: wallets.at(wallets.discount) as usize,
            referrer: wallets.at(wallets.referrer) as usize,
        }
    }

    /// Those among the cells of the row's wallets alone, in their order.
    pub fn in_hand(wallets: &RowWallets) -> WalletPlaces
        ensures { result ≡ hand_places wallets.now }
    {
        WalletPlaces {
            coin: wallets.coin as usize,
            pc: wallets.pc as usize,
            discount: wallets.discount as usize,
            referrer: wallets.referrer as usize,
        }
    }
}

/// A row that acts, what it sees, and where the wallets that it names stand.
#[derive(Drop)]
pub(crate) struct Asked<'a> {
    pub(crate) row: &'a Row,
    pub(crate) seen: &'a Seen,
    pub(crate) places: &'a WalletPlaces,
}
