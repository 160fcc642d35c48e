//! Parcels: amounts of one mint's tokens that must be spent.

ghost use Rattle.std.specs.Prelude.{◌≡◌, ◌+◌, ◌-◌, ◌<◌, ◌≤◌, ◌^◌};

use dex_types::Address;
use std::marker::Model;

/// An amount of one mint's tokens, in native units, that must be spent: it can neither be copied nor dropped.
#[derive(Debug)]
pub struct Parcel {
    mint: Address,
    amount: u64,
}

impl Model for Parcel {
    ghost use Rattle.dex_wallet.specs.TokenAmount.{TokenAmount};

    ghost Value = { TokenAmount };

    ghost view = { λ p. record { mint = p.mint; amount = p.amount } };
}

impl Parcel {
    /// All tokens of a mint, whose supply this is.
    pub fn of_supply(mint: Address, supply: u64) -> Parcel
        ensures { result ≡ record { mint = mint; amount = supply } }
    {
        Parcel {
            mint,
            amount: supply,
        }
    }

    /// How many native units there are.
    pub fn amount(&self) -> u64
        ensures { result ≡ self.now.amount }
    {
        self.amount
    }

    /// The mint of the tokens.
    pub fn mint(&self) -> Address
        ensures { result ≡ self.now.mint }
    {
        self.mint
    }

    /// A parcel of this amount, and the rest.
    pub fn split(self, amount: u64) -> (Parcel, Parcel)
        requires { amount ≤ self.amount }
        ensures first { result.0 ≡ record self { amount = amount } }
        ensures rest { result.1 ≡ record self { amount = self.amount - amount } }
    {
        let mut rest = self;
        let first = rest.take(amount);
        (first, rest)
    }

    /// Both amounts in one parcel.
    pub fn join(self, other: Parcel) -> Parcel
        requires mint { other.mint ≡ self.mint }
        requires fits { self.amount + other.amount < 2 ^ 64 }
        ensures { result ≡ record self { amount = self.amount + other.amount } }
    {
        let mut both = self;
        both.put(other);
        both
    }

    /// Takes an amount out, as a parcel of its own.
    pub fn take(&mut self, amount: u64) -> Parcel
        requires { amount ≤ self.old.amount }
        ensures taken { result ≡ record self.old { amount = amount } }
        ensures rest { self.new ≡ record self.old { amount = self.old.amount - amount } }
    {
        self.amount -= amount;
        Parcel {
            mint: self.mint,
            amount,
        }
    }

    /// Puts another parcel of the mint in.
    pub fn put(&mut self, other: Parcel)
        requires mint { other.mint ≡ self.old.mint }
        requires fits { self.old.amount + other.amount < 2 ^ 64 }
        ensures { self.new ≡ record self.old { amount = self.old.amount + other.amount } }
    {
        let Parcel { mint: _, amount } = other;
        self.amount += amount;
    }

    /// Ends the parcel, where all that it was part of ends.
    pub fn give_up(self) {
        let Parcel { mint: _, amount: _ } = self;
    }
}

/// The parcel of a wallet's cell. It is given up where the cell is dropped.
#[derive(Debug)]
pub(crate) struct Share {
    pub(crate) parcel: Parcel,
}

impl Drop for Share {
    fn drop(self) {
        let Share { parcel } = self;
        parcel.give_up();
    }
}
