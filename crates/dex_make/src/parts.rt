//! The addresses of what belongs to a market.

ghost use Rattle.std.specs.Prelude.{◌≡◌};
ghost use Rattle.dex_make.specs.Derived as parts;

use dex_types::Address;

/// What belongs to a market and has an address derived from the market's: its accounts, and the owner of both vaults.
#[derive(Clone, Copy, Debug, PartialEq, Eq)]
pub enum MarketPart {
    CoinVault,
    PcVault,
    RequestQueue,
    EventQueue,
    Bids,
    Asks,
    VaultOwner,
}

/// The last byte of a part's address, from 1 to 7.
fn number_of(part: MarketPart) -> u8
    ensures { result ≡ parts.number_of part }
{
    match part {
        MarketPart::CoinVault => 1,
        MarketPart::PcVault => 2,
        MarketPart::RequestQueue => 3,
        MarketPart::EventQueue => 4,
        MarketPart::Bids => 5,
        MarketPart::Asks => 6,
        MarketPart::VaultOwner => 7,
    }
}

/// The address of a part of the market at an address: that address with another last byte.
pub fn derived(market: Address, part: MarketPart) -> Address
    ensures { result ≡ parts.derived market part }
{
    let mut bytes = market.0;
    bytes[31] = number_of(part);
    Address(bytes)
}
