//! Open accounts among the open-orders accounts of a market, by address, and what their slots hold.

ghost use Rattle.std.specs.Prelude.{◌≡◌, false, IfOk, MatchOption, Some};
ghost use Rattle.std.specs.HashMap as hash;
ghost use Rattle.dex_types.specs.declared.addresses.Address.{Address};
ghost use Rattle.dex_types.specs.Addresses.{is_same};
ghost use Rattle.dex_types.specs.Soundness as book;
ghost use Rattle.dex_types.specs.Trader.{Open, trader_at};
ghost use Rattle.dex_orders.specs.OrdersAccount.{IsOpen, IsOrders, account_of};
ghost use Rattle.dex_orders.specs.StandsFor.{trader_of};
ghost use Rattle.dex_totals.specs.Reading.{AreOrders, LeadToTraders, held_in, is_opened, traders};

use dex_fields::get_u64;
use dex_fields::open_orders::ACCOUNT_FLAGS;
use dex_orders::OrdersRef;
use dex_types::{AccountFlags, Address, NoMemory, OrdersAccount, Side};
use std::alloc::Global;
use std::collections::HashMap;
use std::marker::Model;

/// The account, where it is open.
pub fn opened(bytes: &[u8]) -> Option<OrdersRef<'_>>
    requires { IsOrders bytes.now }
    ensures { MatchOption result
        (is_opened (Some (trader_of bytes.now)) ≡ false)
        (λ view. IsOpen view.bytes.now × (trader_of bytes.now ≡ Open (account_of view.bytes.now))) }
{
    if get_u64(bytes, ACCOUNT_FLAGS) == AccountFlags::OPEN_ORDERS_ACCOUNT.0 {
        Some(OrdersRef { bytes })
    } else {
        None
    }
}

/// A market's open-orders accounts, found by their addresses: of several with one address the first. What a clause sees
/// of them are the traders that they stand for.
#[derive(Drop)]
pub struct Owners<'a> {
    accounts: &'a [OrdersAccount],
    places: HashMap<Address, usize>,
}

impl<'a> Model for Owners<'a> {
    ghost use Rattle.std.specs.HashMap as hash;
    ghost use Rattle.dex_types.specs.Addresses.{is_same};
    ghost use Rattle.dex_types.specs.Trader.{Traders};
    ghost use Rattle.dex_totals.specs.Reading.{AreOrders, LeadToTraders, traders};

    ghost Value = { Traders };

    ghost view = { λ owners. traders owners.accounts.now };

    ghost invariant = { λ owners. AreOrders owners.accounts.now
        × LeadToTraders (hash.get is_same owners.places) owners.accounts.now (traders owners.accounts.now) };
}

impl<'a> Owners<'a> {
    /// These accounts, or that there is no memory to find them: an entry for each.
    pub fn of(alloc: Global, accounts: &'a [OrdersAccount]) -> Result<Owners<'a>, NoMemory>
        requires { AreOrders accounts.now }
        ensures { IfOk result (λ owners. owners ≡ traders accounts.now) }
    {
        let places = places_of(alloc, accounts)?;
        Ok(Owners { accounts, places })
    }

    /// The account of an address, where it is open.
    fn find_open(&self, owner: Address) -> Option<OrdersRef<'_>>
        ensures { MatchOption result
            (is_opened (trader_at owner self.now) ≡ false)
            (λ view. IsOpen view.bytes.now × (trader_at owner self.now ≡ Some (Open (account_of view.bytes.now)))) }
    {
        let place = self.places.get(&owner).copied()?;
        opened(&self.accounts[place].bytes)
    }

    /// Whether the address is that of an open account.
    pub fn is_open(&self, owner: Address) -> bool
        ensures { result ≡ is_opened (trader_at owner self.now) }
    {
        self.find_open(owner).is_some()
    }

    /// The id, side and client id of the order that the slot of an account holds; None where the account is not open or
    /// the slot is free.
    pub fn held_at(&self, owner: Address, slot: u8) -> Option<(u128, Side, u64)>
        ensures { held_in result ≡ book.held_at owner slot self.now }
    {
        self.find_open(owner)?.slot(slot)
    }
}

/// The place of the first account of each address.
fn places_of(alloc: Global, accounts: &[OrdersAccount]) -> Result<HashMap<Address, usize>, NoMemory>
    ensures { IfOk result (λ places.
        LeadToTraders (hash.get is_same places) accounts.now (traders accounts.now)) }
{
    let mut places = HashMap::with_capacity(alloc, accounts.len())?;
    for place in (0..accounts.len()).rev() {
        places.insert(accounts[place].address, place)?;
    }
    Ok(places)
}
