//! Cancels, done in place. None takes memory.

ghost use Rattle.dex_accounts.specs.Owners.{bytes_at};
ghost use Rattle.dex_accounts.specs.Decoded.{AreSound, market_in};
ghost use Rattle.dex_cancel.specs.Cancelling.{named_by};
ghost use Rattle.dex_market.specs.MarketAccount.{IsMarket, market_words, sizes_of};
ghost use Rattle.dex_ring.specs.PendingFills.{pending_fills_of};
ghost use Rattle.dex_step.specs.Acting.{HasStepped};
ghost use Rattle.dex_step.specs.FundBytes.{CanChange};
ghost use Rattle.dex_step.specs.CancelActs.{CanCancel, HasCancelled, IsCancelDecided, cancel_bytes, cancel_step};
ghost use Rattle.dex_lent.specs.Lent.{KeepsPlaces, lent_of};
ghost use Rattle.std.specs.Prelude.{◌≡◌, IsSome, Some};

use crate::steps_orders::StepsOrders;
use dex_cancel::CancelWhat;
use dex_cancel_slots::{Owner, apply_cancel_by_slots};
use dex_lent::{LentMarket, OrdersAccounts, ReadMarket};
use dex_market::MarketRef;
use dex_orders::OrdersRef;
use dex_ring::RingView;
use dex_slab::SlabView;
use dex_types::{Address, Lots, Reply, Side};

/// The bytes of the account of an address that is among these.
fn bytes_of<O: OrdersAccounts>(accounts: &O, address: Address) -> &[u8]
    requires { IsSome (bytes_at address (O.held accounts.now)) }
    ensures { bytes_at address (O.held accounts.now) ≡ Some result.now }
{
    match accounts.find(address) {
        Some(bytes) => bytes,
        None => unreachable!(),
    }
}

/// The lot sizes that the market account says.
fn sizes_in<O: StepsOrders>(accounts: &LentMarket<'_, O>) -> Lots
    requires { IsMarket accounts.now.market.now }
    ensures { result ≡ sizes_of (market_words accounts.now.market.now) }
{
    MarketRef {
        bytes: accounts.market(),
    }
    .sizes()
}

/// A cancel, on the bytes of its accounts. It answers how many orders it took.
fn cancel_on_bytes(
    what: &CancelWhat,
    owner: Owner<'_>,
    sizes: Lots,
    bids: &mut [u8],
    asks: &mut [u8],
    events: &mut [u8],
) -> u32
    requires { CanCancel (named_by what.now) owner.account owner.orders.bytes.now
        (cancel_bytes sizes bids.old asks.old events.old) }
    ensures { HasCancelled (named_by what.entry.now) owner.entry.account result
        (cancel_bytes sizes bids.old asks.old events.old) (cancel_bytes sizes bids.new asks.new events.new) }
{
    apply_cancel_by_slots(
        what,
        owner,
        sizes,
        &mut SlabView {
            bytes: bids,
            side: Side::Bid,
        },
        &mut SlabView {
            bytes: asks,
            side: Side::Ask,
        },
        &mut RingView { bytes: events },
    )
}

/// A cancel of the owner's orders, whose account is among these.
pub(crate) fn cancel_among<O: OrdersAccounts>(
    what: &CancelWhat,
    owner: Address,
    accounts: &O,
    sizes: Lots,
    bids: &mut [u8],
    asks: &mut [u8],
    events: &mut [u8],
) -> u32
    requires { CanChange owner (λ account. CanCancel (named_by what.now) owner account
        (cancel_bytes sizes bids.old asks.old events.old)) (O.held accounts.now) }
    ensures { HasCancelled (named_by what.entry.now) owner result
        (cancel_bytes sizes bids.old asks.old events.old) (cancel_bytes sizes bids.new asks.new events.new) }
{
    let held = bytes_of(accounts, owner);
    let owner = Owner {
        account: owner,
        orders: OrdersRef { bytes: held },
    };
    cancel_on_bytes(what, owner, sizes, bids, asks, events)
}

/// Orders of an owner taken off the book, as it was decided: an out of each waits for it, and it is answered how many
/// there were. What makers' fills are still to take off totals stays.
pub(crate) fn cancel_row<O: StepsOrders>(
    accounts: &mut LentMarket<'_, O>,
    owner: Address,
    what: &CancelWhat,
) -> Reply
    requires sound { AreSound (lent_of O.held accounts.old) }
    requires decided { IsCancelDecided (named_by what.now) owner (market_in (lent_of O.held accounts.old)) }
    ensures stepped { let m = market_in (lent_of O.held accounts.old) in
        HasStepped (lent_of O.held accounts.old) (lent_of O.held accounts.new) result
        (pending_fills_of m.events) (cancel_step (named_by what.entry.now) owner m) }
    ensures places { KeepsPlaces O.place accounts.old accounts.new }
{
    let sizes = sizes_in(accounts);
    let count = accounts.orders.cancel(
        what,
        owner,
        sizes,
        accounts.bids,
        accounts.asks,
        accounts.events,
    );
    Reply::Cancelled(count)
}
