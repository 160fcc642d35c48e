//! Public calls of the step crates by their own names, on the accounts of a sound market. Rows make their twins, which
//! are handed the sums of what is pending, or go by the slots of an account.

ghost use Rattle.dex_accounts.specs.Decoded.{AreSound};
ghost use Rattle.dex_accounts.specs.Parts.{HasOpen, parts_of};
ghost use Rattle.dex_cancel.specs.Parts.{AreOfSoundMarket};
ghost use Rattle.dex_crank.specs.PaidBytes.{crank_bytes};
ghost use Rattle.dex_crank.specs.Parts as crank;
ghost use Rattle.dex_market.specs.MarketAccount.{IsMarket, market_words, sizes_of};
ghost use Rattle.dex_ring.specs.Ring.{IsEventQueue};
ghost use Rattle.dex_slab.specs.Slab.{IsSlab, resting};
ghost use Rattle.dex_types.specs.Accounts.{market_accounts_of};
ghost use Rattle.dex_types.specs.declared.terms.Side.TheVariants.{Ask, Bid};
ghost use Rattle.std.specs.Prelude.{◌≡◌, IfSome};

use dex_accounts::find_bytes;
use dex_cancel::{CancelWhat, apply_cancel, decide_cancel};
use dex_crank::consume;
use dex_market::MarketRef;
use dex_orders::{OrdersState, check_orders, state_of};
use dex_ring::RingView;
use dex_slab::SlabView;
use dex_types::{Address, Lots, MarketAccounts, OrdersAccount, Refusal, Side};

/// The bytes of the account of an address, where it is open.
pub(crate) fn open_at(accounts: &MarketAccounts, owner: Address) -> Option<&[u8]>
    ensures { IfSome result (λ held. HasOpen owner held.now (parts_of (market_accounts_of accounts.now))) }
{
    let bytes = find_bytes(&accounts.orders, owner)?;
    if check_orders(bytes).is_ok() && state_of(bytes) == OrdersState::Open {
        Some(bytes)
    } else {
        None
    }
}

/// The lot sizes of a market.
fn sizes_in(market: &[u8]) -> Lots
    requires { IsMarket market.now }
    ensures { result ≡ sizes_of (market_words market.now) }
{
    MarketRef { bytes: market }.sizes()
}

/// A cancel of bytes that are handed to it: how many orders were to be taken off the book, and how many were.
fn cancel_on_bytes(
    what: &CancelWhat,
    owner: Address,
    sizes: Lots,
    bids: &mut [u8],
    asks: &mut [u8],
    events: &mut [u8],
) -> Result<(u32, u32), Refusal>
    requires bids { IsSlab bids.old }
    requires asks { IsSlab asks.old }
    requires events { IsEventQueue events.old }
    requires market { AreOfSoundMarket (record {
      sizes = sizes;
      bids = resting Bid bids.old;
      asks = resting Ask asks.old;
      queue = events.old;
    }) }
{
    let mut bids = SlabView {
        bytes: bids,
        side: Side::Bid,
    };
    let mut asks = SlabView {
        bytes: asks,
        side: Side::Ask,
    };
    let mut ring = RingView { bytes: events };
    let decided = decide_cancel(&bids, &asks, ring.room(), owner, what)?;
    let taken = apply_cancel(what, owner, sizes, &mut bids, &mut asks, &mut ring);
    Ok((decided, taken))
}

/// A cancel is decided, and done where it is not refused: how many orders were to be taken off the book, and how many
/// were.
pub(crate) fn cancel(
    accounts: &mut MarketAccounts,
    owner: Address,
    what: &CancelWhat,
) -> Result<(u32, u32), Refusal>
    requires { AreSound (market_accounts_of accounts.old) }
{
    let sizes = sizes_in(&accounts.market);
    cancel_on_bytes(
        what,
        owner,
        sizes,
        &mut accounts.bids,
        &mut accounts.asks,
        &mut accounts.events,
    )
}

/// Events of bytes that are handed to it are consumed.
fn consume_on_bytes(
    events: &mut [u8],
    orders: &mut [OrdersAccount],
    named: &[Address],
    limit: u16,
) -> u32
    requires { crank.AreOfSoundMarket (crank_bytes events.old orders.old) }
{
    consume(&mut RingView { bytes: events }, orders, named, limit)
}

/// Events are consumed: how many.
pub(crate) fn crank(accounts: &mut MarketAccounts, named: &[Address], limit: u16) -> u32
    requires { AreSound (market_accounts_of accounts.old) }
{
    consume_on_bytes(&mut accounts.events, &mut accounts.orders, named, limit)
}
