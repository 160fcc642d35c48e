//! The names of markets and wallets, kept for look-ups.

ghost use Rattle.std.specs.Prelude.{◌≡◌, ◌≤◌, cond, IfOk, OnOk, Some, length, map};
ghost use Rattle.std.specs.HashMap as hash;
ghost use Rattle.std.specs.List.{position};
ghost use Rattle.dex_types.specs.declared.addresses.Address.{Address};
ghost use Rattle.dex_types.specs.Addresses.{is_same};
ghost use Rattle.dex_types.specs.declared.limits.Limits.{Limits};
ghost use Rattle.dex_script.specs.Names as spec;
ghost use Rattle.dex_script.specs.Telling.{start_of};

use crate::draft::Start;
use crate::market::DeclaredMarket;
use dex_script_types::{FindsWallets, addresses_of_wallets, push_address, wallets_at};
use dex_statement::Parties;
use dex_types::{Address, NoMemory};
use dex_world::RowWallets;
use std::alloc::Global;
use std::collections::HashMap;

/// Where the market and the wallets of a row stand in the lists of those with which its script starts.
#[derive(Clone, Copy)]
pub struct Stand {
    pub market: u16,
    pub wallets: RowWallets,
}

/// The markets and the wallets with which a script starts, each at its place.
#[derive(Drop)]
pub struct Names {
    pub markets: HashMap<Address, u16>,
    pub wallets: HashMap<Address, u16>,
}

impl Names {
    /// The names of markets and wallets at these addresses. Of those that stand twice the first counts.
    pub fn of(alloc: Global, markets: &[Address], wallets: &[Address]) -> Result<Names, NoMemory>
        requires markets { length markets.now ≤ 65535 }
        requires wallets { length wallets.now ≤ 65535 }
        ensures { IfOk result (λ names. spec.AreAt names markets.now wallets.now) }
    {
        Ok(Names {
            markets: places_of(alloc, markets)?,
            wallets: places_of(alloc, wallets)?,
        })
    }

    /// The names of the accounts so far.
    pub(crate) fn of_start(alloc: Global, start: &Start) -> Result<Names, NoMemory>
        requires { (limits : Limits) × spec.AreFew limits (start_of start.now) }
        ensures { IfOk result (λ names. spec.AreNames names (start_of start.now)) }
    {
        let markets = market_addresses(alloc, &start.markets)?;
        let wallets = addresses_of_wallets(alloc, &start.wallets)?;
        Names::of(alloc, &markets, &wallets)
    }

    /// Where the market and the wallets that an instruction row names stand, if all of them are here.
    pub fn places_of(&self, parties: &Parties) -> Option<Stand>
        ensures { spec.FindsIn self.now parties.now result }
    {
        let market = place_among(&self.markets, &parties.market)?;
        let wallets = wallets_at(
            self,
            parties.coin,
            parties.pc,
            parties.discount,
            parties.referrer,
        )?;
        Some(Stand { market, wallets })
    }
}

impl FindsWallets for Names {
    ghost use Rattle.std.specs.HashMap as hash;
    ghost use Rattle.dex_types.specs.Addresses.{is_same};

    ghost place = { λ names. hash.get is_same names.wallets };

    fn find(&self, address: Address) -> Option<u16> {
        place_among(&self.wallets, &address)
    }
}

/// Where an address stands, if it is here.
fn place_among(places: &HashMap<Address, u16>, address: &Address) -> Option<u16>
    ensures { result ≡ hash.get is_same places.now address.now }
{
    places.get(address).copied()
}

/// Puts an address at a place.
fn put(places: &mut HashMap<Address, u16>, address: Address, place: u16) -> Result<(), NoMemory>
    ensures { OnOk result ((other : Address)
        → hash.get is_same places.new other
        ≡ cond (is_same address other) (Some place) (hash.get is_same places.old other)) }
{
    match places.insert(address, place) {
        Ok(_) => Ok(()),
        Err(_) => Err(NoMemory),
    }
}

/// The places of these addresses. It goes from the last to the first, so the first of an address counts.
fn places_of(alloc: Global, addresses: &[Address]) -> Result<HashMap<Address, u16>, NoMemory>
    requires { length addresses.now ≤ 65535 }
    ensures { IfOk result (λ places. (address : Address)
        → hash.get is_same places address ≡ position (is_same address) addresses.now) }
{
    let mut places = HashMap::new(alloc);
    for place in (0..addresses.len()).rev() {
        put(&mut places, addresses[place], place as u16)?;
    }
    Ok(places)
}

/// The addresses of these markets, in their order.
fn market_addresses(alloc: Global, markets: &[DeclaredMarket]) -> Result<Vec<Address>, NoMemory>
    ensures { IfOk result (λ addresses. addresses.items ≡ map spec.market_address markets.now) }
{
    let mut addresses = Vec::new(alloc);
    for market in markets {
        push_address(&mut addresses, market.address())?;
    }
    Ok(addresses)
}
