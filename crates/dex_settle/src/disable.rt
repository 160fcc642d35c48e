//! Disabling a market for good.

ghost use Rattle.std.specs.Prelude.{◌≡◌};
ghost use Rattle.dex_types.specs.Reasons.{answered};
ghost use Rattle.dex_accounts.specs.Keeps.{KeepsMarket};
ghost use Rattle.dex_market.specs.MarketAccount.{IsMarket, market_words};
ghost use Rattle.dex_settle.specs.PayingOut.{with_disabled};
ghost use Rattle.dex_settle.specs.Refusing as refusing;

use dex_market::{MarketRef, MarketView};
use dex_reasons::{disabled, not_authority};
use dex_types::{AccountFlags, Address, Refusal};

/// Whether the market may be disabled, or why that is refused. It reads only.
///
/// Refused are, in this order: a market that is disabled already; a signer who is not the market's authority.
pub fn decide_disable(
    market: &MarketRef<'_>,
    authority: Address,
    signer: Address,
) -> Result<(), Refusal>
    requires { IsMarket market.now.bytes.now }
    ensures { result ≡ answered (refusing.disable_reason (market_words market.now.bytes.now).account_flags
        authority signer) tt }
{
    match disabled(market.account_flags()).or(not_authority(authority, signer)) {
        Some(why) => Err(why),
        None => Ok(()),
    }
}

/// Disables the market for good: its flags are those of a disabled one; all other bytes stay.
pub fn apply_disable(market: &mut MarketView<'_>)
    requires { IsMarket market.old.bytes.now }
    ensures does { market.new.bytes.now ≡ with_disabled market.old.bytes.now }
    ensures account { KeepsMarket market.old market.new }
{
    market.set_account_flags(AccountFlags::DISABLED_MARKET_ACCOUNT.0);
}
