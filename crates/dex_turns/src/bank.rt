//! A bank.

ghost use Rattle.std.specs.Prelude.{◌≡◌, ◌<◌, length, map, slice_index_or};
ghost use Rattle.std.specs.List.{AllZip};
ghost use Rattle.dex_types.specs.Accounts.{named_of};
ghost use Rattle.dex_gate.specs.GateView.{GateView};
ghost use Rattle.dex_turns.specs.Bank.{IsBank, IsMarketGate, IsWalletGate};
ghost use Rattle.dex_turns.specs.Inside.{ArePartsOf};
ghost use Rattle.dex_turns.specs.Outline.{terms_of};

use crate::outline::Outline;
use dex_act::Terms;
use dex_gate::Gate;
use dex_journals::{BankMarket, BankWallet};
use dex_types::Named;
use std::marker::Model;

/// The markets and wallets of a script, each behind a gate of its own, so that lanes act on them side by side. Every
/// lane has a seat.
#[derive(Drop)]
pub struct Bank {
    pub(crate) outline: Outline,
    pub(crate) mints: Vec<Named>,
    pub(crate) markets: Vec<Gate<BankMarket>>,
    pub(crate) wallets: Vec<Gate<BankWallet>>,
}

impl Model for Bank {
    ghost use Rattle.dex_turns.specs.Bank.{BankState};
    ghost use Rattle.dex_turns.specs.Inside.{IsBankKept, bank_inside};

    ghost Value = { BankState };

    ghost view = { bank_inside };

    ghost invariant = { IsBankKept };
}

/// What a bank is made of, when it is taken apart.
#[derive(Drop)]
pub struct BankParts {
    pub mints: Vec<Named>,
    pub terms: Terms,
    pub markets: Vec<Gate<BankMarket>>,
    pub wallets: Vec<Gate<BankWallet>>,
}

impl Bank {
    /// The bank of these gates.
    pub fn of(
        outline: Outline,
        mints: Vec<Named>,
        markets: Vec<Gate<BankMarket>>,
        wallets: Vec<Gate<BankWallet>>,
    ) -> Bank
        requires markets { AllZip (IsMarketGate outline) outline.start.markets markets.items }
        requires wallets { AllZip (IsWalletGate outline) outline.start.wallets wallets.items }
        requires mints { map named_of mints.items ≡ outline.start.mints }
        ensures bank { result ≡ record { script = outline; markets = markets.items; wallets = wallets.items } }
        ensures kept { IsBank result }
    {
        Bank {
            outline,
            mints,
            markets,
            wallets,
        }
    }

    /// How many markets and how many wallets there are.
    pub fn counts(&self) -> (usize, usize)
        ensures markets { result.0 ≡ length self.now.markets }
        ensures wallets { result.1 ≡ length self.now.wallets }
        ensures kept { IsBank self.now }
    {
        (self.markets.len(), self.wallets.len())
    }

    /// Takes the bank apart.
    pub fn into_parts(self) -> BankParts
        ensures parts { ArePartsOf self result }
        ensures kept { IsBank self }
    {
        let Bank {
            outline,
            mints,
            markets,
            wallets,
        } = self;
        BankParts {
            mints,
            terms: outline.terms,
            markets,
            wallets,
        }
    }

    /// What rows see beside their wallets.
    pub(crate) fn terms(&self) -> &Terms
        ensures terms { result.now ≡ terms_of self.now.script }
        ensures kept { IsBank self.now }
    {
        &self.outline.terms
    }

    /// The gate of the market at a place.
    pub(crate) fn market_gate(&self, place: usize) -> &Gate<BankMarket>
        requires { place < length self.now.markets }
        ensures { (default : GateView _ _) → result.now ≡ slice_index_or self.now.markets place default }
    {
        &self.markets[place]
    }

    /// The gate of the wallet at a place.
    pub(crate) fn wallet_gate(&self, place: usize) -> &Gate<BankWallet>
        requires { place < length self.now.wallets }
        ensures { (default : GateView _ _) → result.now ≡ slice_index_or self.now.wallets place default }
    {
        &self.wallets[place]
    }
}
