//! A law of checks. A law is a function without a body of its own, and its clause is the law.

ghost use Rattle.std.specs.Prelude.{Some};
ghost use Rattle.dex_accounts.specs.Accepted.{IsAccepted};
ghost use Rattle.dex_accounts.specs.Decoded.{AreSound};
ghost use Rattle.dex_check.specs.declared.flaw.Flaw.{Flaw};
ghost use Rattle.dex_check.specs.Flaws.{Tells};
ghost use Rattle.dex_state.specs.Held.{IsHeldMarket};
ghost use Rattle.dex_types.specs.Accounts.{PlainMarketAccounts};

use dex_audit::markets_without_findings_are_sound;
use dex_dump::checks_of_a_market_hold_exactly_where_it_is_accepted;

/// Accounts of bytes that are accepted and those of a sound market have no flaw.
pub fn a_sound_market_has_no_flaw()
    ensures { (accounts : PlainMarketAccounts) (flaw : Flaw) → IsHeldMarket accounts → IsAccepted accounts
        → AreSound accounts → ¬ Tells (Some flaw) accounts }
{
    checks_of_a_market_hold_exactly_where_it_is_accepted();
    markets_without_findings_are_sound();
}
