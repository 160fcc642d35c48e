//! The check of the wallets that an instruction names.

ghost use Rattle.std.specs.Prelude.{◌≡◌, ◌↔◌, IsNone};
ghost use Rattle.dex_check.specs.Wallets as spec;
ghost use Rattle.dex_purse.specs.Purse.{AreApart, AreWallets};
ghost use Rattle.dex_purse.specs.Purse as purse;

use crate::flaw::Flaw;
use crate::market_slices::WalletSlices;
use dex_purse::{Roles, Slot};
use dex_token::check_wallet;
use dex_types::{Address, is_same};

/// Whether a role names a place.
fn names(slot: Slot, role: Option<Slot>) -> bool
    ensures { result ≡ purse.names slot role }
{
    matches!(
        (slot, role),
        (Slot::First, Some(Slot::First))
            | (Slot::Second, Some(Slot::Second))
            | (Slot::Third, Some(Slot::Third))
            | (Slot::Fourth, Some(Slot::Fourth))
    )
}

/// Whether a place is named under some role.
fn is_named(slot: Slot, roles: &Roles) -> bool
    ensures { result ≡ spec.is_named slot roles.now }
{
    names(slot, roles.coin)
        || names(slot, roles.pc)
        || names(slot, roles.discount)
        || names(slot, roles.referrer)
}

/// The flaw of a place that is named.
fn wallet_flaw(named: bool, address: Address, bytes: &[u8]) -> Option<Flaw>
    ensures { result ≡ spec.wallet_flaw named address bytes.now }
{
    if !named {
        return None;
    }
    let fault = check_wallet(bytes).err()?;
    Some(Flaw::Fault(address, fault))
}

/// The flaw of two places that are both named.
fn twice_flaw(both: bool, one: Address, other: Address) -> Option<Flaw>
    ensures { result ≡ spec.twice_flaw both one other }
{
    if both && is_same(one, other) {
        Some(Flaw::Twice(other))
    } else {
        None
    }
}

/// The first of the four that is no token account.
fn first_fault(wallets: &WalletSlices<'_>, roles: &Roles) -> Option<Flaw>
    ensures { result ≡ spec.first_fault roles.now (spec.purse_of wallets.now) }
{
    let first = wallet_flaw(
        is_named(Slot::First, roles),
        wallets.first_address,
        wallets.first,
    );
    let second = wallet_flaw(
        is_named(Slot::Second, roles),
        wallets.second_address,
        wallets.second,
    );
    let third = wallet_flaw(
        is_named(Slot::Third, roles),
        wallets.third_address,
        wallets.third,
    );
    let fourth = wallet_flaw(
        is_named(Slot::Fourth, roles),
        wallets.fourth_address,
        wallets.fourth,
    );
    first.or(second).or(third).or(fourth)
}

/// The first two of the four that have one address.
fn first_twice(wallets: &WalletSlices<'_>, roles: &Roles) -> Option<Flaw>
    ensures { result ≡ spec.first_twice roles.now (spec.purse_of wallets.now) }
{
    let first = is_named(Slot::First, roles);
    let second = is_named(Slot::Second, roles);
    let third = is_named(Slot::Third, roles);
    let fourth = is_named(Slot::Fourth, roles);
    twice_flaw(
        first & second,
        wallets.first_address,
        wallets.second_address,
    )
    .or(twice_flaw(first & third, wallets.first_address, wallets.third_address))
    .or(twice_flaw(
        second & third,
        wallets.second_address,
        wallets.third_address,
    ))
    .or(twice_flaw(
        first & fourth,
        wallets.first_address,
        wallets.fourth_address,
    ))
    .or(twice_flaw(
        second & fourth,
        wallets.second_address,
        wallets.fourth_address,
    ))
    .or(twice_flaw(
        third & fourth,
        wallets.third_address,
        wallets.fourth_address,
    ))
}

/// The first flaw of the wallets.
fn first_flaw(wallets: &WalletSlices<'_>, roles: &Roles) -> Option<Flaw>
    ensures { result ≡ spec.wallets_flaw roles.now (spec.purse_of wallets.now) }
{
    first_fault(wallets, roles).or(first_twice(wallets, roles))
}

/// Whether the wallets that an instruction names are token accounts, and no two have one address, as `process` wants
/// them; else their first flaw.
pub fn check_wallets(wallets: &WalletSlices<'_>, roles: &Roles) -> Option<Flaw>
    ensures flaw { result ≡ spec.wallets_flaw roles.now (spec.purse_of wallets.now) }
    ensures exact { IsNone result ↔ (AreWallets roles.now (spec.purse_of wallets.now)
        × AreApart roles.now (spec.purse_of wallets.now)) }
{
    first_flaw(wallets, roles)
}
