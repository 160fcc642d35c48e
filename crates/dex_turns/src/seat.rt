//! The seat of a lane.

ghost use Rattle.std.specs.Prelude.{◌≡◌, [], IfOk};
ghost use Rattle.std.specs.List.{AllZip};
ghost use Rattle.dex_turns.specs.Seats.{IsMarketPass, IsSeat, IsWalletPass, fresh_seat};

use crate::outline::Outline;
use crate::stamped_record::StampedRecord;
use dex_gate::Pass;
use dex_journals::{BankMarket, BankWallet};
use dex_script_types::Script;
use dex_stamps::{Kept, Log, Stamp};
use dex_types::{NoMemory, Row};
use dex_wallet::WalletCell;
use std::alloc::Global;
use std::marker::Model;

/// A lane's passes for all wallets, and the cells of those whose turns it has.
#[derive(Drop)]
pub(crate) struct WalletPasses {
    pub(crate) passes: Vec<Pass<BankWallet>>,
    pub(crate) hands: Vec<WalletCell>,
}

/// A lane's seat at a bank: its passes for all markets and wallets, and what it made, which are its lane's first rows,
/// each done once, in their order. One thread at a time uses it.
#[derive(Drop)]
pub struct LaneSeat {
    pub(crate) lane: u32,
    pub(crate) markets: Vec<Pass<BankMarket>>,
    pub(crate) wallets: WalletPasses,
    pub(crate) calls: Log<Row, StampedRecord>,
    pub(crate) last: Stamp,
    pub(crate) script: Kept<Script>,
}

impl Model for LaneSeat {
    ghost use Rattle.dex_turns.specs.Seats.{SeatState};
    ghost use Rattle.dex_turns.specs.Inside.{IsSeatKept, seat_inside};

    ghost Value = { SeatState };

    ghost view = { seat_inside };

    ghost invariant = { IsSeatKept };
}

impl LaneSeat {
    /// The seat of a lane, of whose rows none has acted. Asks memory.
    pub fn open(
        alloc: Global,
        outline: &Outline,
        lane: u32,
        markets: Vec<Pass<BankMarket>>,
        wallets: Vec<Pass<BankWallet>>,
    ) -> Result<LaneSeat, NoMemory>
        requires markets { AllZip (IsMarketPass lane []) outline.now.start.markets markets.items }
        requires wallets { AllZip (IsWalletPass lane []) outline.now.start.wallets wallets.items }
        ensures { IfOk result (λ seat. seat ≡ fresh_seat lane outline.now markets.items wallets.items) }
    {
        Ok(LaneSeat {
            lane,
            markets,
            wallets: WalletPasses {
                passes: wallets,
                hands: Vec::with_capacity(alloc, 4)?,
            },
            calls: Log::new(),
            last: Stamp::first(),
            script: outline.kept(),
        })
    }

    /// The passes of the seat, at the end.
    pub fn into_passes(self) -> (Vec<Pass<BankMarket>>, Vec<Pass<BankWallet>>)
        ensures markets { result.0.items ≡ self.markets }
        ensures wallets { result.1.items ≡ self.wallets }
        ensures kept { IsSeat self }
    {
        let LaneSeat {
            markets,
            wallets,
            ..
        } = self;
        (markets, wallets.passes)
    }

    /// The number of the lane.
    pub fn lane(&self) -> u32
        ensures lane { result ≡ self.now.lane }
        ensures seat { IsSeat self.now }
    {
        self.lane
    }
}
