//! Putting an address among others that rise.

ghost use Rattle.std.specs.Prelude.{◌≡◌, ◌∷◌, [], List, Option, Some};
ghost use Rattle.dex_types.specs.declared.addresses.Address.{Address};
ghost use Rattle.dex_types.specs.Wallets as wallets;
ghost use Rattle.dex_locks.specs.Places.{carry_of, moved, put};

use dex_types::{Address, is_same};

/// What is still to be done, from some place on, of putting an address among others.
#[derive(Clone, Copy, Debug, PartialEq, Eq)]
pub enum Carry {
    /// Nothing.
    Nothing,
    /// The place of this address is to be found.
    New(Address),
    /// This address gave its place to the one before, and takes the next.
    Moved(Address),
}

/// Puts the address of a role, where it names one, among those that stand in these places; what the last place gives up
/// is lost.
pub fn put_role(places: &mut [Option<Address>; 4], role: &Option<Address>)
    ensures { places.new ≡ put (carry_of role.entry.now) places.old }
{
    if let Some(address) = role {
        let carry = put_new(&mut places[0], *address);
        let carry = step(&mut places[1], carry);
        let carry = step(&mut places[2], carry);
        step(&mut places[3], carry);
    }
}

/// Does what is to be done at one place, and tells what is left to be done from the next one on.
fn step(place: &mut Option<Address>, carry: Carry) -> Carry
    ensures { (others : List (Option Address))
        → put carry (place.old ∷ others) ≡ place.new ∷ put result others }
{
    match carry {
        Carry::Nothing => Carry::Nothing,
        Carry::New(added) => put_new(place, added),
        Carry::Moved(before) => {
            let given = moved(*place);
            *place = Some(before);
            given
        }
    }
}

/// What a place gives up.
fn moved(place: Option<Address>) -> Carry
    ensures { result ≡ moved place }
{
    match place {
        Some(address) => Carry::Moved(address),
        None => Carry::Nothing,
    }
}

/// The step of an address whose place is to be found.
fn put_new(place: &mut Option<Address>, address: Address) -> Carry
    ensures { (others : List (Option Address)) → put (Carry.New address) (place.old ∷ others)
        ≡ place.new ∷ put result others }
{
    match *place {
        None => {
            *place = Some(address);
            Carry::Nothing
        }
        Some(first) => put_before(place, first, address),
    }
}

/// Like `put_new`, where an address stands in the place.
fn put_before(place: &mut Option<Address>, first: Address, address: Address) -> Carry
    requires { place.old ≡ Some first }
    ensures { (others : List (Option Address)) → put (Carry.New address) (Some first ∷ others)
        ≡ place.new ∷ put result others }
{
    if is_same(address, first) {
        return Carry::Nothing;
    }
    if is_lower(address, first) {
        *place = Some(address);
        return Carry::Moved(first);
    }
    Carry::New(address)
}

/// Whether the first address is less than the second, by their bytes.
pub fn is_lower(address: Address, other: Address) -> bool
    ensures { result ≡ wallets.is_lower address other }
{
    address.0 < other.0
}
