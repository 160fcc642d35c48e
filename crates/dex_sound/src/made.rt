//! The market that a script makes.

ghost use Rattle.std.specs.Prelude.{List};
ghost use Rattle.dex_types.specs.declared.addresses.Address.{Address};
ghost use Rattle.dex_types.specs.Market.{Listing};
ghost use Rattle.dex_types.specs.Soundness.{IsSound};
ghost use Rattle.dex_sound.specs.Made.{made_market, CanMake};

/// A market is sound as it is made.
pub fn a_made_market_is_sound()
    ensures { (listing : Listing) (addresses : List Address) → CanMake listing addresses
        → IsSound (made_market listing addresses) }
{}
