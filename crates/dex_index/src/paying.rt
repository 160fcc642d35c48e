//! An event's owner, paid among accounts with an index of them.

ghost use Rattle.std.specs.Prelude.{◌≡◌, map};
ghost use Rattle.dex_types.specs.Accounts.{orders_account_of};
ghost use Rattle.dex_types.specs.QueuedEvent.{decoded_event};
ghost use Rattle.dex_accounts.specs.Owners.{changed_at};
ghost use Rattle.dex_crank.specs.PaidBytes.{HasOwner, paid_in};
ghost use Rattle.dex_index.specs.Reached.{reached_by};

use crate::index::AccountIndex;
use crate::owned::pay_among;
use dex_types::{Event, OrdersAccount};

/// Pays the event to its owner's account, to which the index leads.
pub(crate) fn pay_indexed(index: &AccountIndex, accounts: &mut [OrdersAccount], event: &Event)
    requires { HasOwner (decoded_event event.now) (reached_by index.now (map orders_account_of accounts.old)) }
    ensures { reached_by index.now (map orders_account_of accounts.new)
        ≡ changed_at event.now.owner (paid_in (decoded_event event.now))
        (reached_by index.now (map orders_account_of accounts.old)) }
{
    let near = index.near(event.owner, accounts.len());
    pay_among(&mut accounts[near.start..near.end], event);
}
