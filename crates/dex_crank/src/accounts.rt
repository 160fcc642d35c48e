//! The owner's open-orders account, paid in place.

ghost use Rattle.std.specs.Prelude.{◌≡◌, ◌<◌, IsSome, None, length, map, slice_index_or, slice_set};
ghost use Rattle.dex_types.specs.declared.account_bytes.OrdersAccount.{OrdersAccount};
ghost use Rattle.dex_types.specs.Accounts.{orders_account_of};
ghost use Rattle.dex_types.specs.QueuedEvent.{decoded_event};
ghost use Rattle.dex_orders.specs.OrdersAccount.{IsOpen, account_of, funded, funds_of, removed};
ghost use Rattle.dex_accounts.specs.Owners.{changed_at};
ghost use Rattle.dex_lent.specs.Flat.{accounts_in};
ghost use Rattle.dex_crank.specs.Funds.{FitsFunds, paid_funds};
ghost use Rattle.dex_crank.specs.PaidBytes.{CanTake, HasOwner, paid_in};

use crate::kinds::is_final;
use crate::payment::paid_funds;
use dex_accounts::place_of;
use dex_lent::{DATA, FlatOrders, OrdersAccounts, OwnedOrders, data_at};
use dex_orders::OrdersView;
use dex_types::{Event, OrdersAccount};

/// Pays the event into the funds; all other bytes stay.
fn pay_funds(bytes: &mut [u8], event: &Event)
    requires accepted { IsOpen bytes.old }
    requires fits { FitsFunds (decoded_event event.now).kind (decoded_event event.now)
        (funds_of (account_of bytes.old)) }
    ensures { bytes.new ≡ funded bytes.old (paid_funds (decoded_event event.now).kind (decoded_event event.now)
        (funds_of (account_of bytes.old))) }
{
    let mut view = OrdersView { bytes };
    let funds = paid_funds(event, view.funds());
    view.set_funds(funds);
}

/// Frees the slot, with zeros as its id, client id and side bit; all other bytes stay.
fn free_slot(bytes: &mut [u8], slot: u8)
    requires accepted { IsOpen bytes.old }
    requires taken { IsSome (slice_index_or (account_of bytes.old).slots slot None) }
    ensures { bytes.new ≡ removed bytes.old slot }
{
    OrdersView { bytes }.remove(slot);
}

/// Pays the event to this account: its funds, and its slot where the event is the last of its order.
fn pay(bytes: &mut [u8], event: &Event)
    requires { CanTake (decoded_event event.now) bytes.old }
    ensures { bytes.new ≡ paid_in (decoded_event event.now) bytes.old }
{
    pay_funds(bytes, event);
    if is_final(event) {
        free_slot(bytes, event.slot);
    }
}

fn pay_buffer(bytes: &mut Vec<u8>, event: &Event)
    requires { CanTake (decoded_event event.now) bytes.old.items }
    ensures { bytes.new.items ≡ paid_in (decoded_event event.now) bytes.old.items }
{
    pay(bytes, event);
}

/// Pays the event to the account at this place.
fn pay_at(accounts: &mut [OrdersAccount], place: usize, event: &Event)
    requires within { place < length accounts.old }
    requires can_take { (default : OrdersAccount) → CanTake (decoded_event event.now)
        (slice_index_or accounts.old place default).bytes.items }
    ensures { (default : OrdersAccount) →
        let account = slice_index_or accounts.old place default in
        map orders_account_of accounts.new
        ≡ slice_set (map orders_account_of accounts.old) place
        (record { address = account.address; bytes = paid_in (decoded_event event.now) account.bytes.items }) }
{
    pay_buffer(&mut accounts[place].bytes, event);
}

/// Open-orders accounts that events are paid to.
pub trait PaysOrders: OrdersAccounts {
    /// Pays the event to its owner's account; all other accounts stay.
    fn pay_owner(&mut self, event: &Event)
        requires { HasOwner (decoded_event event.now) (Self.held self.old) }
        ensures held { Self.held self.new ≡ changed_at event.now.owner (paid_in (decoded_event event.now))
            (Self.held self.old) }
        ensures place { Self.place self.new ≡ Self.place self.old };
}

impl<'a> PaysOrders for OwnedOrders<'a> {
    fn pay_owner(&mut self, event: &Event) {
        pay_owned(self.accounts, event);
    }
}

impl<'a> PaysOrders for FlatOrders<'a> {
    fn pay_owner(&mut self, event: &Event) {
        pay_flat(self.bytes, event);
    }
}

/// Pays the event to its owner's account among records.
fn pay_flat(bytes: &mut [u8], event: &Event)
    requires { HasOwner (decoded_event event.now) (accounts_in bytes.old) }
    ensures { accounts_in bytes.new ≡ changed_at event.now.owner (paid_in (decoded_event event.now))
        (accounts_in bytes.old) }
{
    let at = data_at(bytes, event.owner);
    pay(&mut bytes[at..at + DATA], event);
}

/// Pays the event to its owner's account among accounts that own their bytes.
fn pay_owned(accounts: &mut [OrdersAccount], event: &Event)
    requires { HasOwner (decoded_event event.now) (map orders_account_of accounts.old) }
    ensures { map orders_account_of accounts.new ≡ changed_at event.now.owner (paid_in (decoded_event event.now))
        (map orders_account_of accounts.old) }
{
    let place = place_of(accounts, event.owner);
    pay_at(accounts, place, event);
}
