//! Native amounts brought into a vault and taken out of it, in place.

ghost use Rattle.std.specs.Prelude.{◌+◌, ◌-◌, ◌<◌, ◌≤◌, ◌^◌};
ghost use Rattle.dex_step.specs.Acting.{Holds};
ghost use Rattle.dex_token.specs.TokenAccount.{IsWallet, wallet_words};

use dex_token::WalletView;

/// Brings a native amount into a vault.
pub(crate) fn bring(vault: &mut [u8], amount: u64)
    requires wallet { IsWallet vault.old }
    requires fits { (wallet_words vault.old).amount + amount < 2 ^ 64 }
    ensures { Holds vault.old vault.new ((wallet_words vault.old).amount + amount) }
{
    let mut view = WalletView { bytes: vault };
    let held = view.amount();
    view.set_amount(held + amount);
}

/// Takes a native amount out of a vault.
pub(crate) fn take_out(vault: &mut [u8], amount: u64)
    requires wallet { IsWallet vault.old }
    requires held { amount ≤ (wallet_words vault.old).amount }
    ensures { Holds vault.old vault.new ((wallet_words vault.old).amount - amount) }
{
    let mut view = WalletView { bytes: vault };
    let held = view.amount();
    view.set_amount(held - amount);
}
