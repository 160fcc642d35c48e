//! Where each of a market's open-orders accounts stands among them, by its address.

ghost use Rattle.std.specs.Prelude.{◌≡◌, cond, IfOk, MatchOption, None, OnOk, Some, map};
ghost use Rattle.std.specs.HashMap as hash;
ghost use Rattle.dex_types.specs.declared.addresses.Address.{Address};
ghost use Rattle.dex_types.specs.Accounts.{orders_account_of};
ghost use Rattle.dex_types.specs.Addresses.{is_same};
ghost use Rattle.dex_types.specs.Soundness.{AreDistinct};
ghost use Rattle.dex_accounts.specs.Owners.{bytes_at};
ghost use Rattle.dex_orders.specs.StandsFor.{traders_of};
ghost use Rattle.dex_index.specs.Reached.{IsIndexOf, IsNear, LeadsToAll, is_place, leads_by, leads_to, reached_by};

use dex_types::{Address, NoMemory, OrdersAccount};
use std::alloc::Global;
use std::collections::HashMap;
use std::ops::Range;

/// So many accounts are looked through sooner than an address is hashed.
const FEW: usize = 16;

/// An index of a market's open-orders accounts: for the address of each its place among them. Of few accounts none is
/// kept, and all are looked through. It stays one while no account gets another address or another place.
#[derive(Drop)]
pub struct AccountIndex {
    places: Option<HashMap<Address, usize>>,
}

impl AccountIndex {
    /// The index of these accounts, or that there is no memory for it: an entry for each.
    pub fn of(alloc: Global, accounts: &[OrdersAccount]) -> Result<AccountIndex, NoMemory>
        requires { AreDistinct (traders_of (map orders_account_of accounts.now)) }
        ensures { IfOk result (λ index. IsIndexOf index (map orders_account_of accounts.now)) }
    {
        if accounts.len() <= FEW {
            return Ok(AccountIndex { places: None });
        }
        Ok(AccountIndex {
            places: Some(places_of(alloc, accounts)?),
        })
    }

    /// Of so many places those to which it leads an address.
    pub(crate) fn near(&self, address: Address, count: usize) -> Range<usize>
        ensures { IsNear (leads_to self.now address) count result.start result.end }
    {
        match &self.places {
            None => 0..count,
            Some(places) => only(places.get(&address).copied(), count),
        }
    }
}

/// The place that was found, where it is one of so many.
fn only(found: Option<usize>, count: usize) -> Range<usize>
    ensures { IsNear (is_place found) count result.start result.end }
{
    match found {
        Some(place) if place < count => place..place + 1,
        _ => 0..0,
    }
}

/// The place of each account, by its address.
fn places_of(alloc: Global, accounts: &[OrdersAccount]) -> Result<HashMap<Address, usize>, NoMemory>
    requires { AreDistinct (traders_of (map orders_account_of accounts.now)) }
    ensures { IfOk result (λ places. LeadsToAll (leads_by (Some places)) 0 (map orders_account_of accounts.now)) }
{
    let mut places = HashMap::with_capacity(alloc, accounts.len())?;
    for place in (0..accounts.len()).rev() {
        put(&mut places, accounts[place].address, place)?;
    }
    Ok(places)
}

/// Puts an address at a place.
fn put(places: &mut HashMap<Address, usize>, address: Address, place: usize) -> Result<(), NoMemory>
    ensures { OnOk result ((other : Address)
        → hash.get is_same places.new other
        ≡ cond (is_same address other) (Some place) (hash.get is_same places.old other)) }
{
    match places.insert(address, place) {
        Ok(_) => Ok(()),
        Err(_) => Err(NoMemory),
    }
}

/// The bytes of the account of the address, if the index leads to it.
pub(crate) fn find_bytes<'a>(
    index: &AccountIndex,
    accounts: &'a [OrdersAccount],
    address: Address,
) -> Option<&'a [u8]>
    ensures { MatchOption result
        (bytes_at address (reached_by index.now (map orders_account_of accounts.now)) ≡ None)
        (λ bytes. bytes_at address (reached_by index.now (map orders_account_of accounts.now)) ≡ Some bytes.now) }
{
    let near = index.near(address, accounts.len());
    dex_accounts::find_bytes(&accounts[near.start..near.end], address)
}
