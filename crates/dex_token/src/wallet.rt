//! A token account, for reading and for writing its amount in place.

ghost use Rattle.std.specs.Prelude.{◌≡◌};
ghost use Rattle.dex_token.specs.TokenAccount.{IsWallet, wallet_words, with_amount};

use dex_fields::token_account::{AMOUNT, MINT, OWNER};
use dex_fields::{get_addr, get_u64, put_u64};
use dex_types::Address;

/// A token account, for reading. Each call needs bytes that `check_wallet` accepts.
#[derive(Clone, Copy, Debug)]
pub struct WalletRef<'a> {
    pub bytes: &'a [u8],
}

/// A token account, for reading and for writing its amount in place. Each call needs bytes that `check_wallet` accepts,
/// and a write leaves them accepted.
#[derive(Debug, Drop)]
pub struct WalletView<'a> {
    pub bytes: &'a mut [u8],
}

impl WalletRef<'_> {
    /// The mint of its tokens.
    pub fn mint(&self) -> Address
        requires { IsWallet self.now.bytes.now }
        ensures { result ≡ (wallet_words self.now.bytes.now).mint }
    {
        Address(get_addr(self.bytes, MINT))
    }

    /// Whose account it is.
    pub fn owner(&self) -> Address
        requires { IsWallet self.now.bytes.now }
        ensures { result ≡ (wallet_words self.now.bytes.now).owner }
    {
        Address(get_addr(self.bytes, OWNER))
    }

    /// What it holds, in native units.
    pub fn amount(&self) -> u64
        requires { IsWallet self.now.bytes.now }
        ensures { result ≡ (wallet_words self.now.bytes.now).amount }
    {
        get_u64(self.bytes, AMOUNT)
    }
}

impl WalletView<'_> {
    /// The account, for reading.
    fn as_ref(&self) -> WalletRef<'_>
        ensures { result.bytes.now ≡ self.now.bytes.now }
    {
        WalletRef { bytes: self.bytes }
    }

    /// The mint of its tokens.
    pub fn mint(&self) -> Address
        requires { IsWallet self.now.bytes.now }
        ensures { result ≡ (wallet_words self.now.bytes.now).mint }
    {
        self.as_ref().mint()
    }

    /// Whose account it is.
    pub fn owner(&self) -> Address
        requires { IsWallet self.now.bytes.now }
        ensures { result ≡ (wallet_words self.now.bytes.now).owner }
    {
        self.as_ref().owner()
    }

    /// What it holds, in native units.
    pub fn amount(&self) -> u64
        requires { IsWallet self.now.bytes.now }
        ensures { result ≡ (wallet_words self.now.bytes.now).amount }
    {
        self.as_ref().amount()
    }

    /// Writes what it holds, in native units. All other bytes stay.
    pub fn set_amount(&mut self, value: u64)
        requires { IsWallet self.old.bytes.now }
        ensures place { self.new.bytes.ghost_name ≡ self.old.bytes.ghost_name }
        ensures bytes { self.new.bytes.now ≡ with_amount self.old.bytes.now value }
        ensures words { wallet_words self.new.bytes.now
            ≡ record (wallet_words self.old.bytes.now) { amount = value } }
        ensures accepted { IsWallet self.new.bytes.now }
    {
        put_u64(self.bytes, AMOUNT, value);
    }
}
