//! Why a new order is refused before it meets anything.

ghost use Rattle.std.specs.Prelude.{◌≡◌, [], ◌∷◌};
ghost use Rattle.dex_market.specs.RequestQueue.{IsRequestQueue, next_sequence};
ghost use Rattle.dex_orders.specs.OrdersAccount.{IsOpen, account_of};
ghost use Rattle.dex_types.specs.Reasons as reasons;
ghost use Rattle.dex_types.specs.Trader as trader;

use crate::order_terms::Taker;
use dex_market::RequestRef;
use dex_orders::OrdersRef;
use dex_reasons::{ask_too_large, time_past, used_up};
use dex_types::{Lots, Refusal};

/// The lowest free slot of an account, or 128 where all are taken.
pub(crate) fn lowest_slot(orders: &OrdersRef<'_>) -> u8
    requires { IsOpen orders.now.bytes.now }
    ensures { result ≡ trader.free_slot (account_of orders.now.bytes.now).slots }
{
    match orders.free_slot() {
        None => 128,
        Some(slot) => slot,
    }
}

/// The market's next sequence number, or 2^64 - 1, which no order gets, where all have been given out.
pub(crate) fn sequence_of(requests: &RequestRef<'_>) -> u64
    requires { IsRequestQueue requests.now.bytes.now }
    ensures { result ≡ next_sequence requests.now.bytes.now }
{
    match requests.next_seq() {
        Err(_) => u64::MAX,
        Ok(sequence) => sequence,
    }
}

/// All 128 slots of the account are taken.
fn no_slot(orders: &OrdersRef<'_>) -> Option<Refusal>
    requires { IsOpen orders.now.bytes.now }
    ensures { result ≡ reasons.no_slot (account_of orders.now.bytes.now) }
{
    match orders.free_slot() {
        None => Some(Refusal::TooManyOpenOrders),
        Some(_) => None,
    }
}

/// The clock is past the latest time of an order that has one.
fn too_late(taker: Taker) -> Option<Refusal>
    ensures { result ≡ reasons.time_past taker.now taker.max_ts }
{
    time_past(taker.now, taker.max_ts)
}

/// Why a new order of an open account is refused before it meets anything, if it is. It reads only.
///
/// Refused are, in this order: an account without a free slot; an ask of 2^64 native base or more; any order once all
/// sequence numbers are given out; an order whose latest time is past.
pub(crate) fn refused_early(
    sizes: Lots,
    taker: Taker,
    requests: &RequestRef<'_>,
    orders: &OrdersRef<'_>,
) -> Option<Refusal>
    requires requests { IsRequestQueue requests.now.bytes.now }
    requires account { IsOpen orders.now.bytes.now }
    ensures { result ≡ reasons.first_of (reasons.no_slot (account_of orders.now.bytes.now)
        ∷ reasons.ask_too_large taker.id_side sizes taker.lots
        ∷ reasons.used_up (next_sequence requests.now.bytes.now)
        ∷ reasons.time_past taker.now taker.max_ts ∷ []) }
{
    no_slot(orders)
        .or(ask_too_large(taker.id_side, sizes, taker.lots))
        .or(used_up(sequence_of(requests)))
        .or(too_late(taker))
}
