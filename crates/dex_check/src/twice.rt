//! Whether two open-orders accounts have one address.

ghost use Rattle.std.specs.Prelude.{IfOk, map};
ghost use Rattle.dex_check.specs.Flaws.{TellsTwice};
ghost use Rattle.dex_types.specs.Accounts.{orders_account_of};

use dex_dump::TakenAddresses;
use dex_types::{Address, NoMemory, OrdersAccount};
use std::alloc::Global;

/// The first address that an earlier account has too.
pub(crate) fn find_twice(
    alloc: Global,
    accounts: &[OrdersAccount],
) -> Result<Option<Address>, NoMemory>
    ensures { IfOk result (λ told. TellsTwice told (map orders_account_of accounts.now)) }
{
    let mut taken = TakenAddresses::new(alloc);
    for place in 0..accounts.len() {
        let address = accounts[place].address;
        if taken.has(address) {
            return Ok(Some(address));
        }
        taken.push(address)?;
    }
    Ok(None)
}
