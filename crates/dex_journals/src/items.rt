//! What the histories of gates are of, as clauses see it. No value of these types is made.

use dex_script_types::Script;
use dex_stamps::{Kept, Stamp};
use dex_types::{Address, Entry, MarketAccounts, Row, Seen, WalletEntry};
use std::marker::Model;

/// A call with its stamp.
pub struct StampedCall {
    row: Row,
    seen: Seen,
    entry: Entry,
    stamp: Stamp,
}

impl Model for StampedCall {
    ghost use Rattle.dex_history.specs.Journal.{Call};
    ghost use Rattle.dex_stamps.specs.Stamped.{Stamped};
    ghost use Rattle.dex_journals.specs.Items.{call_inside};

    ghost Value = { Stamped Call };

    ghost view = { call_inside };
}

/// An entry of a wallet's journal with its stamp.
pub struct StampedEntry {
    entry: WalletEntry,
    stamp: Stamp,
}

impl Model for StampedEntry {
    ghost use Rattle.dex_types.specs.declared.movements.WalletEntry.{WalletEntry};
    ghost use Rattle.dex_stamps.specs.Stamped.{Stamped};
    ghost use Rattle.dex_journals.specs.Items.{entry_inside};

    ghost Value = { Stamped WalletEntry };

    ghost view = { entry_inside };
}

/// What no turn changes of a market.
pub struct MarketStart {
    start: Kept<MarketAccounts>,
    script: Kept<Script>,
}

impl Model for MarketStart {
    ghost use Rattle.dex_journals.specs.Journals.{MarketOrigin};
    ghost use Rattle.dex_journals.specs.Items.{market_start_inside};

    ghost Value = { MarketOrigin };

    ghost view = { market_start_inside };
}

/// What no turn changes of a wallet.
pub struct WalletStart {
    address: Address,
    bytes: Kept<Vec<u8>>,
    script: Kept<Script>,
}

impl Model for WalletStart {
    ghost use Rattle.dex_journals.specs.Journals.{WalletOrigin};
    ghost use Rattle.dex_journals.specs.Items.{wallet_start_inside};

    ghost Value = { WalletOrigin };

    ghost view = { wallet_start_inside };
}
