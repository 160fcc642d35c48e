//! Sweeping: all pc fees are paid out.

ghost use Rattle.std.specs.Prelude.{◌≡◌};
ghost use Rattle.dex_types.specs.Reasons.{answered};
ghost use Rattle.dex_accounts.specs.Keeps.{KeepsMarket};
ghost use Rattle.dex_market.specs.MarketAccount.{IsMarket, market_words};
ghost use Rattle.dex_settle.specs.PayingOut.{swept};
ghost use Rattle.dex_settle.specs.Refusing as refusing;

use dex_market::{MarketRef, MarketView};
use dex_reasons::{Payout, missing, not_authority, other_mint, too_full};
use dex_types::{Address, Refusal, Seen};

fn refusal_of(
    market: &MarketRef<'_>,
    authority: Address,
    signer: Address,
    seen: &Seen,
) -> Option<Refusal>
    requires { IsMarket market.now.bytes.now }
    ensures { result ≡ refusing.sweep_reason (market_words market.now.bytes.now) authority signer seen.now }
{
    let paid = Payout {
        coin: 0,
        pc: market.pc_fees_accrued(),
        referrer: 0,
    };
    missing(seen.pc)
        .or(not_authority(authority, signer))
        .or(other_mint(market.pc_mint(), seen.pc))
        .or(too_full(seen, paid, seen.pc))
}

/// The native pc that sweeping pays to the pc wallet, which is all pc fees, or why it is refused. It reads only.
///
/// Refused are, in this order: a row that names no pc wallet; a signer who is not the market's authority; a pc wallet
/// of another mint; one whose balance would be 2^64 or more with the fees.
pub fn decide_sweep(
    market: &MarketRef<'_>,
    authority: Address,
    signer: Address,
    seen: &Seen,
) -> Result<u64, Refusal>
    requires { IsMarket market.now.bytes.now }
    ensures { result ≡ answered (refusing.sweep_reason (market_words market.now.bytes.now) authority signer seen.now)
        (market_words market.now.bytes.now).pc_fees_accrued }
{
    match refusal_of(market, authority, signer, seen) {
        Some(why) => Err(why),
        None => Ok(market.pc_fees_accrued()),
    }
}

/// Sweeps the fees as it was decided: the pc fees are 0; all other bytes stay.
pub fn apply_sweep(market: &mut MarketView<'_>)
    requires { IsMarket market.old.bytes.now }
    ensures does { market.new.bytes.now ≡ swept market.old.bytes.now }
    ensures account { KeepsMarket market.old market.new }
{
    market.set_pc_fees_accrued(0);
}
