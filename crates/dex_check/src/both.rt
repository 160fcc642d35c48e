//! The check of all that an instruction acts on.

ghost use Rattle.std.specs.Prelude.{IfOk};
ghost use Rattle.dex_check.specs.Both.{TellsBoth};
ghost use Rattle.dex_check.specs.Flaws.{accounts_of};
ghost use Rattle.dex_check.specs.Wallets.{purse_of};

use crate::checking::check;
use crate::flaw::Flaw;
use crate::market_slices::{MarketSlices, WalletSlices};
use crate::wallets::check_wallets;
use dex_purse::Roles;
use dex_types::NoMemory;
use std::alloc::Global;

/// Whether these are accounts and wallets as `process` wants them: nothing, or the first flaw of the accounts, or where
/// they have none that of the wallets.
pub fn check_both(
    alloc: Global,
    market: &MarketSlices<'_>,
    wallets: &WalletSlices<'_>,
    roles: &Roles,
) -> Result<Option<Flaw>, NoMemory>
    ensures { IfOk result (λ told. TellsBoth told roles.now (accounts_of market.now) (purse_of wallets.now)) }
{
    match check(alloc, market)? {
        None => Ok(check_wallets(wallets, roles)),
        Some(flaw) => Ok(Some(flaw)),
    }
}
