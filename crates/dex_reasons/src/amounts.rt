//! Reasons that ask for amounts, free places and the clock.

ghost use Rattle.std.specs.Prelude.{◌≡◌, ◌+◌, ◌<◌, ◌^◌, Some};
ghost use Rattle.dex_types.specs.Reasons as reasons;

use dex_types::{Lots, Refusal, Side, WalletSeen};

/// The native base of an ask is 2^64 or more.
pub fn ask_too_large(side: Side, sizes: Lots, lots: u64) -> Option<Refusal>
    ensures { result ≡ reasons.ask_too_large side sizes lots }
{
    match side {
        Side::Bid => None,
        Side::Ask => match lots.checked_mul(sizes.coin) {
            None => Some(Refusal::AskTooLarge),
            Some(_) => None,
        },
    }
}

/// The market has given out all sequence numbers before this one, and this one is the last, which is never used.
pub fn used_up(next_sequence: u64) -> Option<Refusal>
    ensures { result ≡ reasons.used_up next_sequence }
{
    if next_sequence == u64::MAX {
        Some(Refusal::SequenceExhausted)
    } else {
        None
    }
}

/// The clock is past the latest time of an order that has one.
pub fn time_past(now: i64, max_ts: Option<i64>) -> Option<Refusal>
    ensures { result ≡ reasons.time_past now max_ts }
{
    let max = max_ts?;
    if max < now {
        Some(Refusal::TimePast { now, max })
    } else {
        None
    }
}

/// An instruction's events are more than the free places of the event queue.
pub fn no_room(needed: u32, room: u32) -> Option<Refusal>
    ensures { result ≡ reasons.no_room needed room }
{
    if room < needed {
        Some(Refusal::EventQueueFull { needed, room })
    } else {
        None
    }
}

/// A deposit is more than the balance of the wallet that pays it, in native amounts.
pub fn short_by(deposit: u64, balance: u64) -> Option<Refusal>
    ensures { result ≡ reasons.short_by deposit (Some balance) }
{
    if balance < deposit {
        Some(Refusal::InsufficientFunds {
            needed: deposit,
            balance,
        })
    } else {
        None
    }
}

/// The wallet that pays, where one is named, has less than the deposit, in native amounts.
pub fn short_of(deposit: u64, payer: Option<WalletSeen>) -> Option<Refusal>
    ensures { result ≡ reasons.short_of deposit payer }
{
    let wallet = payer?;
    short_by(deposit, wallet.balance)
}

/// A vault, with what pending makers' fills are still to take off totals, is 2^64 or more, in native amounts.
pub fn beyond(vault: u128, pending: u128) -> Option<Refusal>
    requires { vault + pending < 2 ^ 128 }
    ensures { result ≡ reasons.beyond vault pending }
{
    if u128::from(u64::MAX) < vault + pending {
        Some(Refusal::SumTooLarge { vault, pending })
    } else {
        None
    }
}
