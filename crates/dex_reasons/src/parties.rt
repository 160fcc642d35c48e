//! Reasons that ask for the market's flags and for who signs.

ghost use Rattle.std.specs.Prelude.{◌≡◌, ◌==◌};
ghost use Rattle.dex_types.specs.Reasons as reasons;

use dex_types::{AccountFlags, Address, Refusal, is_same};

/// The market is disabled.
pub fn disabled(flags: u64) -> Option<Refusal>
    ensures { result ≡ reasons.when_disabled (flags == 131) }
{
    if flags == AccountFlags::DISABLED_MARKET_ACCOUNT.0 {
        Some(Refusal::MarketDisabled)
    } else {
        None
    }
}

/// The signer is not the account's owning person.
pub fn not_owner(owner: Address, signer: Address) -> Option<Refusal>
    ensures { result ≡ reasons.not_person owner signer }
{
    if is_same(owner, signer) {
        None
    } else {
        Some(Refusal::NotOwner { owner })
    }
}

/// The signer is not the market's authority.
pub fn not_authority(authority: Address, signer: Address) -> Option<Refusal>
    ensures { result ≡ reasons.not_this_authority authority signer }
{
    if is_same(authority, signer) {
        None
    } else {
        Some(Refusal::NotAuthority { authority })
    }
}
