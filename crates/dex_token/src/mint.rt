//! A mint, for reading.

ghost use Rattle.std.specs.Prelude.{◌≡◌};
ghost use Rattle.dex_token.specs.MintAccount.{IsMint, mint_words};

use dex_fields::mint::{DECIMALS, SUPPLY};
use dex_fields::{get_u8, get_u64};

/// A mint, for reading. Each call needs bytes that `check_mint` accepts.
#[derive(Clone, Copy, Debug)]
pub struct MintRef<'a> {
    pub bytes: &'a [u8],
}

impl MintRef<'_> {
    /// What all its accounts hold together, in native units.
    pub fn supply(&self) -> u64
        requires { IsMint self.now.bytes.now }
        ensures { result ≡ (mint_words self.now.bytes.now).supply }
    {
        get_u64(self.bytes, SUPPLY)
    }

    /// With how many decimals an amount is shown.
    pub fn decimals(&self) -> u8
        requires { IsMint self.now.bytes.now }
        ensures { result ≡ (mint_words self.now.bytes.now).decimals }
    {
        get_u8(self.bytes, DECIMALS)
    }
}
