ghost use Rattle.std.specs.Prelude.{◌≡◌, ◌≤◌};
ghost use Rattle.dex_types.specs.Fees as fees;

use dex_types::{Program, Tier};

/// Hundredths of a percent in a whole.
const WHOLE: u128 = 10_000;

/// What a taker pays, in hundredths of a percent of the quote that was traded.
#[tactic(auto, unfolding(dex_types::specs::Fees::taker_rate))]
fn taker_rate(program: Program, tier: Tier) -> u128
    ensures value { result ≡ fees.taker_rate program tier }
    ensures small { result ≤ 22 }
{
    match (program, tier) {
        (Program::OpenBook, _) => 4,
        (Program::Serum, Tier::Base) => 22,
        (Program::Serum, Tier::Srm2) => 20,
        (Program::Serum, Tier::Srm3) => 18,
        (Program::Serum, Tier::Srm4) => 16,
        (Program::Serum, Tier::Srm5) => 14,
        (Program::Serum, Tier::Srm6) => 12,
        (Program::Serum, Tier::Msrm) => 10,
    }
}

/// What a maker gets back, in hundredths of a percent of the quote that was traded.
#[tactic(auto, unfolding(dex_types::specs::Fees::maker_rate))]
fn maker_rate(program: Program, tier: Tier) -> u128
    ensures value { result ≡ fees.maker_rate program tier }
    ensures small { result ≤ 5 }
{
    match (program, tier) {
        (Program::OpenBook, _) => 2,
        (Program::Serum, Tier::Msrm) => 5,
        (Program::Serum, _) => 3,
    }
}

/// The taker's fee on the native quote of all its fills, rounded up.
pub fn taker_fee(program: Program, tier: Tier, pc: u64) -> u64
    ensures value { result ≡ fees.taker_fee program tier pc }
    ensures at_most_all { result ≤ pc }
{
    ((pc as u128 * taker_rate(program, tier) + (WHOLE - 1)) / WHOLE) as u64
}

/// A maker's rebate on the native quote of one fill, rounded down.
pub fn maker_rebate(program: Program, tier: Tier, pc: u64) -> u64
    ensures value { result ≡ fees.maker_rebate program tier pc }
    ensures at_most_all { result ≤ pc }
{
    (pc as u128 * maker_rate(program, tier) / WHOLE) as u64
}

/// The referrer's part of a fee: a fifth of it, rounded down.
pub fn referrer_part(fee: u64) -> u64
    ensures { result ≡ fees.referrer_part fee }
{
    fee / 5
}

/// The most native quote that a bid can trade with this lock, so that the lock pays the fee on it too.
pub fn spendable(program: Program, tier: Tier, lock: u64) -> u64
    ensures value { result ≡ fees.spendable program tier lock }
    ensures at_most_all { result ≤ lock }
{
    (WHOLE * lock as u128 / (WHOLE + taker_rate(program, tier))) as u64
}
