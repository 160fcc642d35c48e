//! Laws of accounts as they are made. A law is a function without a body, and its clause is the law.

ghost use Rattle.std.specs.Prelude.{◌≡◌, ◌≢◌, false, [], List, length, slice_index};
ghost use Rattle.dex_types.specs.declared.addresses.Address.{Address};
ghost use Rattle.dex_types.specs.Accounts.{PlainMarketAccounts};
ghost use Rattle.dex_types.specs.Addresses.{is_same};
ghost use Rattle.dex_types.specs.Market.{Listing};
ghost use Rattle.dex_types.specs.Soundness.{AreDistinct, IsSound};
ghost use Rattle.dex_sound.specs.Made.{CanMake, blanks, made_market};
ghost use Rattle.dex_make.specs.declared.market.MarketSet.{MarketSet};
ghost use Rattle.dex_make.specs.declared.parts.MarketPart.{MarketPart};
ghost use Rattle.dex_make.specs.Derived.{derived};
ghost use Rattle.dex_make.specs.MarketSet.{CanTrade, IsMarketSet, listing_of};
ghost use Rattle.dex_accounts.specs.StandsFor.{StandsFor};
ghost use Rattle.dex_make.specs.Blanks.{with_blanks};

/// Two parts of a market have two addresses, and where the market's own address has 0 as its last byte, none has that.
pub fn parts_have_addresses_of_their_own()
    ensures apart { (market : Address) → length market.0 ≡ 32 → (part other : MarketPart) → part ≢ other
        → is_same (derived market part) (derived market other) ≡ false }
    ensures own { (market : Address)
        → length market.0 ≡ 32 → slice_index market.0 31 ≡ 0 → (part : MarketPart)
        → is_same (derived market part) market ≡ false }
{}

/// Where accounts stand for a market as it is made, these with blank open-orders accounts stand for the market as it is
/// made with accounts at those addresses.
pub fn accounts_with_blank_ones_stand_for_the_market_with_them()
    ensures { (accounts : PlainMarketAccounts) (listing : Listing) (addresses : List Address)
        → StandsFor accounts (made_market listing [])
        → StandsFor (with_blanks addresses accounts) (made_market listing addresses) }
{}

/// What a market is made of makes a sound market, with accounts at any addresses that differ.
pub fn a_made_market_is_sound()
    ensures can_make { (made : MarketSet) (addresses : List Address) → IsMarketSet made → CanTrade made
        → AreDistinct (blanks addresses) → CanMake (listing_of made) addresses }
    ensures sound { (made : MarketSet) (addresses : List Address) → IsMarketSet made → CanTrade made
        → AreDistinct (blanks addresses) → IsSound (made_market (listing_of made) addresses) }
{}
