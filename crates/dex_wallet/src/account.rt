//! The token account of a cell.

ghost use Rattle.std.specs.Prelude.{◌≡◌, ◌<◌, ◌^◌};
ghost use Rattle.dex_token.specs.TokenAccount.{IsWallet, with_amount};
ghost use Rattle.dex_wallet.specs.CellState.{balance_of};

use dex_token::{WalletRef, WalletView};

/// The balance of a token account, in native units.
pub fn balance(bytes: &[u8]) -> u64
    requires { IsWallet bytes.now }
    ensures amount { result ≡ balance_of bytes.now }
    ensures fits { result < 2 ^ 64 }
    ensures again { with_amount bytes.now result ≡ bytes.now }
{
    WalletRef { bytes }.amount()
}

fn set_amount(bytes: &mut [u8], value: u64)
    requires { IsWallet bytes.old }
    ensures { bytes.new ≡ with_amount bytes.old value }
{
    WalletView { bytes }.set_amount(value);
}

/// Writes the balance of a token account, in native units.
pub fn set_balance(bytes: &mut Vec<u8>, value: u64)
    requires { IsWallet bytes.old.items }
    ensures { bytes.new.items ≡ with_amount bytes.old.items value }
{
    set_amount(bytes, value);
}
