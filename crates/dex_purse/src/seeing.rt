//! What an instruction sees of wallets.

ghost use Rattle.std.specs.Prelude.{◌≡◌};
ghost use Rattle.dex_token.specs.TokenAccount.{IsWallet};
ghost use Rattle.dex_types.specs.Accounts.{PlainAccount};
ghost use Rattle.dex_purse.specs.Purse as purse;

use crate::lent_wallets::{LentWallets, Slot};
use dex_token::WalletRef;
use dex_types::{Address, WalletSeen};

/// What an instruction sees of a wallet.
fn seen_in(address: Address, bytes: &[u8]) -> WalletSeen
    requires { IsWallet bytes.now }
    ensures { result ≡ purse.seen_in (record { address = address; bytes = bytes.now }) }
{
    let wallet = WalletRef { bytes };
    WalletSeen {
        address,
        mint: wallet.mint(),
        owner: wallet.owner(),
        balance: wallet.amount(),
    }
}

/// What an instruction sees under a role.
pub fn seen_as(wallets: &LentWallets<'_>, role: Option<Slot>) -> Option<WalletSeen>
    requires { purse.IfNamed role (λ (slot : purse.TheSlot).
        IsWallet (purse.wallet_at slot (purse.purse_of wallets.now)).bytes) }
    ensures { result ≡ purse.seen_as role (purse.purse_of wallets.now) }
{
    match role {
        None => None,
        Some(Slot::First) => Some(seen_in(wallets.first_address, wallets.first)),
        Some(Slot::Second) => Some(seen_in(wallets.second_address, wallets.second)),
        Some(Slot::Third) => Some(seen_in(wallets.third_address, wallets.third)),
        Some(Slot::Fourth) => Some(seen_in(wallets.fourth_address, wallets.fourth)),
    }
}
