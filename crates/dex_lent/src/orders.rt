//! The open-orders accounts of a market, whatever holds them.

ghost use Rattle.std.specs.Prelude.{◌≡◌, List, MatchOption, None, Some, map};
ghost use Rattle.std.specs.Borrow.{GName};
ghost use Rattle.dex_types.specs.Accounts.{PlainAccount, orders_account_of};
ghost use Rattle.dex_accounts.specs.Owners.{bytes_at};

use dex_accounts::find_bytes;
use dex_types::{Address, OrdersAccount};

/// The open-orders accounts of a market, whatever holds their bytes.
pub trait OrdersAccounts {
    /// The accounts, in their order.
    ghost held: { Self → List PlainAccount };

    /// Where they lie: what is written to a later state in one place is seen by whoever lent the earlier.
    ghost place: { Self → GName };

    /// The bytes of the account of the address, if it is one of these.
    fn find(&self, address: Address) -> Option<&[u8]>
        ensures { MatchOption result (bytes_at address (held self.now) ≡ None)
            (λ bytes. bytes_at address (held self.now) ≡ Some bytes.now) };
}

/// Accounts that each own their bytes.
#[derive(Drop)]
pub struct OwnedOrders<'a> {
    pub accounts: &'a mut [OrdersAccount],
}

impl<'a> OrdersAccounts for OwnedOrders<'a> {
    ghost held = { λ orders. map orders_account_of orders.accounts.now };

    ghost place = { λ orders. orders.accounts.ghost_name };

    fn find(&self, address: Address) -> Option<&[u8]> {
        find_bytes(self.accounts, address)
    }
}
