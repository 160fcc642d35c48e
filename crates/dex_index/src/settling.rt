//! Settling, opening and closing the account to which an index leads.

ghost use Rattle.std.specs.Prelude.{map};
ghost use Rattle.dex_types.specs.Accounts.{orders_account_of};
ghost use Rattle.dex_orders.specs.OrdersAccount.{IsBlank};
ghost use Rattle.dex_step.specs.FundBytes.{
  CanChange,
  CanClose,
  CanSettle,
  HasChanged,
  HasClosed,
  HasOpened,
  HasSettled,
};
ghost use Rattle.dex_index.specs.Reached.{reached_by};

use crate::index::AccountIndex;
use crate::owned::{close_among, init_among, settle_among};
use dex_settle::SettlePlan;
use dex_types::{Address, OrdersAccount};

/// Settling the owner's account.
pub(crate) fn settle_indexed(
    index: &AccountIndex,
    accounts: &mut [OrdersAccount],
    plan: &SettlePlan,
    owner: Address,
    market: &mut [u8],
)
    requires { CanChange owner (CanSettle plan.now market.old)
        (reached_by index.now (map orders_account_of accounts.old)) }
    ensures { HasChanged owner (HasSettled plan.entry.now market.old market.new)
        (reached_by index.now (map orders_account_of accounts.old))
        (reached_by index.now (map orders_account_of accounts.new)) }
{
    let near = index.near(owner, accounts.len());
    settle_among(&mut accounts[near.start..near.end], plan, owner, market);
}

/// Opening the owner's account.
pub(crate) fn init_indexed(
    index: &AccountIndex,
    accounts: &mut [OrdersAccount],
    owner: Address,
    market: Address,
    person: Address,
)
    requires { CanChange owner IsBlank (reached_by index.now (map orders_account_of accounts.old)) }
    ensures { HasChanged owner (HasOpened market person)
        (reached_by index.now (map orders_account_of accounts.old))
        (reached_by index.now (map orders_account_of accounts.new)) }
{
    let near = index.near(owner, accounts.len());
    init_among(&mut accounts[near.start..near.end], owner, market, person);
}

/// Closing the owner's account.
pub(crate) fn close_indexed(index: &AccountIndex, accounts: &mut [OrdersAccount], owner: Address)
    requires { CanChange owner CanClose (reached_by index.now (map orders_account_of accounts.old)) }
    ensures { HasChanged owner HasClosed
        (reached_by index.now (map orders_account_of accounts.old))
        (reached_by index.now (map orders_account_of accounts.new)) }
{
    let near = index.near(owner, accounts.len());
    close_among(&mut accounts[near.start..near.end], owner);
}
