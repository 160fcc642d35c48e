//! What earlier rows declared.

ghost use Rattle.std.specs.Prelude.{◌≡◌, map};
ghost use Rattle.std.specs.List.{list_any};
ghost use Rattle.dex_types.specs.Accounts.{named_of};
ghost use Rattle.dex_types.specs.Addresses as addresses;
ghost use Rattle.dex_script_types.specs.Known as facts;
ghost use Rattle.dex_script.specs.Known as spec;

use dex_dump::TakenAddresses;
use dex_make::{MarketPart, derived};
use dex_types::{Address, Named, is_same};

/// The addresses that a market row declares: the market's, and those of its vaults, queues, sides and the vaults'
/// owner.
pub(crate) fn made_addresses(market: Address) -> [Address; 8]
    ensures { result ≡ spec.made_addresses market }
{
    [
        market,
        derived(market, MarketPart::CoinVault),
        derived(market, MarketPart::PcVault),
        derived(market, MarketPart::RequestQueue),
        derived(market, MarketPart::EventQueue),
        derived(market, MarketPart::Bids),
        derived(market, MarketPart::Asks),
        derived(market, MarketPart::VaultOwner),
    ]
}

/// Whether one of these addresses is taken.
pub(crate) fn is_any_among(new: &[Address], taken: &TakenAddresses) -> bool
    ensures { result ≡ spec.is_any_among new.now taken.now }
{
    new.iter().any(|address| taken.has(*address))
}

/// Whether an account has this address.
#[tactic(auto, using(dex_dump::proofs::ReadingLaws::list_any_map))]
pub(crate) fn has_account(address: Address, accounts: &[Named]) -> bool
    ensures { result ≡ facts.has_account address (map named_of accounts.now) }
{
    is_named(address, accounts)
}

fn is_named(address: Address, accounts: &[Named]) -> bool
    ensures { result ≡ list_any (λ account. addresses.is_same address account.address) accounts.now }
{
    accounts
        .iter()
        .any(|account| is_same(address, account.address))
}
