ghost use Rattle.std.specs.Prelude.{◌≡◌, ◌<◌};
ghost use Rattle.dex_types.specs.Fees as fees;

use dex_types::Tier;

/// Native MSRM from which a wallet reaches the tier of its own: one whole token, which has no decimals.
const MSRM: u64 = 1;

/// Native SRM, six decimals, from which a wallet reaches each tier above the base.
const SRM_2: u64 = 100_000_000;

const SRM_3: u64 = 1_000_000_000;

const SRM_4: u64 = 10_000_000_000;

const SRM_5: u64 = 100_000_000_000;

const SRM_6: u64 = 1_000_000_000_000;

/// The tier that a discount wallet reaches with this native balance: of MSRM where `msrm` is true, else of SRM.
pub fn tier_of(msrm: bool, balance: u64) -> Tier
    ensures { result ≡ fees.tier_reached msrm balance }
{
    if msrm {
        return if balance >= MSRM {
            Tier::Msrm
        } else {
            Tier::Base
        };
    }
    if balance >= SRM_6 {
        Tier::Srm6
    } else if balance >= SRM_5 {
        Tier::Srm5
    } else if balance >= SRM_4 {
        Tier::Srm4
    } else if balance >= SRM_3 {
        Tier::Srm3
    } else if balance >= SRM_2 {
        Tier::Srm2
    } else {
        Tier::Base
    }
}

/// The number of a tier in orders and events, from 0 to 6.
pub fn tier_number(tier: Tier) -> u8
    ensures value { result ≡ fees.tier_number tier }
    ensures small { result < 7 }
{
    match tier {
        Tier::Base => 0,
        Tier::Srm2 => 1,
        Tier::Srm3 => 2,
        Tier::Srm4 => 3,
        Tier::Srm5 => 4,
        Tier::Srm6 => 5,
        Tier::Msrm => 6,
    }
}

/// The tier of this number.
pub fn tier_at(number: u8) -> Tier
    requires { number < 7 }
    ensures value { result ≡ fees.tier_at number }
    ensures back { fees.tier_number result ≡ number }
{
    match number {
        0 => Tier::Base,
        1 => Tier::Srm2,
        2 => Tier::Srm3,
        3 => Tier::Srm4,
        4 => Tier::Srm5,
        5 => Tier::Srm6,
        _ => Tier::Msrm,
    }
}
