//! Laws of scripts. A law is a function that does nothing, and its clause is the law. One that rests on a law of a
//! crate below calls that.

ghost use Rattle.std.specs.Prelude.{◌≡◌, ℕ, Bool, List, [], false, true};
ghost use Rattle.dex_rows.specs.Records.{rows_of};
ghost use Rattle.dex_audit.specs.Findings.{findings};
ghost use Rattle.dex_types.specs.declared.limits.Limits.{Limits};
ghost use Rattle.dex_state.specs.Accepted.{AreAccepted};
ghost use Rattle.dex_types.specs.Limits.{AreLimits};
ghost use Rattle.dex_script_types.specs.PlainScript.{PlainScript};
ghost use Rattle.dex_script_types.specs.Facts.{AreRows, HasNoSwap, IsStart};
ghost use Rattle.dex_script.specs.Scripts.{ReadsWithin, begins_with_dump};

use dex_audit::{
    accounts_without_findings_are_of_sound_markets, mints_without_findings_are_conserved,
};

/// The instruction rows of a script are not too many, are within the limits, and name only markets and wallets with
/// which the script starts. Their numbers never fall, and rows of one number are the two legs of a swap.
pub fn rows_of_a_script_are_in_order()
    ensures { (limits : Limits) (batch : Bool) (text : List ℕ) (script : PlainScript)
        → ReadsWithin limits batch text script → AreRows script }
{}

/// The numbers of the rows of a script that is to act in batches rise, so it has no swap.
pub fn a_script_for_batches_has_no_swap()
    ensures { (limits : Limits) (text : List ℕ) (script : PlainScript)
        → ReadsWithin limits true text script → HasNoSwap script.rows }
{}

/// A script that is to act in batches is the same script for every other command.
pub fn a_script_for_batches_is_one_for_every_command()
    ensures { (limits : Limits) (text : List ℕ) (script : PlainScript)
        → ReadsWithin limits true text script → ReadsWithin limits false text script }
{}

/// And a script without a swap is the same script where it is to act in batches.
pub fn a_script_without_swaps_is_one_for_batches()
    ensures { (limits : Limits) (text : List ℕ) (script : PlainScript)
        → ReadsWithin limits false text script → HasNoSwap script.rows → ReadsWithin limits true text script }
{}

/// A script has the limits within which it was read.
pub fn a_script_has_its_limits()
    ensures { (limits : Limits) (batch : Bool) (text : List ℕ) (script : PlainScript)
        → ReadsWithin limits batch text script → script.limits ≡ limits }
{}

/// A script that begins with a dump starts with accounts that are accepted and have no findings.
pub fn a_dump_at_the_start_is_accepted()
    ensures { (limits : Limits) (batch : Bool) (text : List ℕ) (script : PlainScript) → AreLimits limits
        → begins_with_dump (rows_of text) ≡ true → ReadsWithin limits batch text script
        → AreAccepted script.limits script.start × (findings script.start ≡ []) }
{}

/// A script starts with accounts that are accepted, market by market those of a sound market, and of which each mint is
/// conserved: its supply is what wallets and vaults hold of it.
pub fn a_script_starts_sound()
    ensures { (limits : Limits) (batch : Bool) (text : List ℕ) (script : PlainScript) → AreLimits limits
        → ReadsWithin limits batch text script → IsStart script.limits script.start }
{
    accounts_without_findings_are_of_sound_markets();
    mints_without_findings_are_conserved();
}
