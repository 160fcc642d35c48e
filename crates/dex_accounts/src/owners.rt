//! The open-orders account of an address among those of a market.

ghost use Rattle.std.specs.Prelude.{◌≡◌, Some, None, IsSome, MatchOption, map};
ghost use Rattle.dex_types.specs.Accounts.{orders_account_of};
ghost use Rattle.dex_accounts.specs.Owners.{IsFirst, bytes_at};

use dex_types::{Address, OrdersAccount, is_same};

/// The place of the first account of the address, if it is among these.
fn find_place(accounts: &[OrdersAccount], address: Address) -> Option<usize>
    ensures { MatchOption result (bytes_at address (map orders_account_of accounts.now) ≡ None)
        (IsFirst address (map orders_account_of accounts.now)) }
{
    for place in 0..accounts.len() {
        if is_same(address, accounts[place].address) {
            return Some(place);
        }
    }
    None
}

/// The place of the account of an address that is among these.
pub fn place_of(accounts: &[OrdersAccount], address: Address) -> usize
    requires { IsSome (bytes_at address (map orders_account_of accounts.now)) }
    ensures { IsFirst address (map orders_account_of accounts.now) result }
{
    match find_place(accounts, address) {
        Some(place) => place,
        None => unreachable!(),
    }
}

/// The bytes of the account of the address, if it is among these.
pub fn find_bytes(accounts: &[OrdersAccount], address: Address) -> Option<&[u8]>
    ensures { MatchOption result (bytes_at address (map orders_account_of accounts.now) ≡ None)
        (λ bytes. bytes_at address (map orders_account_of accounts.now) ≡ Some bytes.now) }
{
    let place = find_place(accounts, address)?;
    Some(&accounts[place].bytes)
}
