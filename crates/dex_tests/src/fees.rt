//! Amounts of fees, by the fee tables of Serum DEX v3 and OpenBook v1.

use dex_fees::{maker_rebate, referrer_part, spendable, taker_fee, tier_number, tier_of};
use dex_types::{Program, Tier};

#[test]
fn amounts_are_those_of_the_tables(rt: HostRuntime) {
    let base = Tier::Base;
    assert!(rt; taker_fee(Program::Serum, base, 200_000) == 440);
    assert!(rt; taker_fee(Program::OpenBook, base, 1_500) == 1);
    assert!(rt; spendable(Program::Serum, base, 200_440) == 200_000);
    assert!(rt; spendable(Program::Serum, base, 200_439) == 199_999);
    assert!(rt; maker_rebate(Program::Serum, base, 200_000) == 60);
    assert!(rt; referrer_part(440) == 88);
    for (tier, fee) in [(base, 4), (Tier::Srm2, 3), (Tier::Msrm, 2)] {
        assert!(rt; taker_fee(Program::Serum, tier, 1_500) == fee);
    }
}

#[test]
fn tiers_begin_at_their_balances(rt: HostRuntime) {
    assert!(rt; tier_of(true, 0) == Tier::Base);
    assert!(rt; tier_of(true, 1) == Tier::Msrm);
    for (tier, srm) in [
        (1, 100_000_000),
        (2, 1_000_000_000),
        (3, 10_000_000_000),
        (4, 100_000_000_000),
        (5, 1_000_000_000_000),
    ] {
        assert!(rt; tier_number(tier_of(false, srm)) == tier);
        assert!(rt; tier_number(tier_of(false, srm.saturating_sub(1))) < tier);
    }
}
