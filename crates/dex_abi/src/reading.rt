//! The reply that numbers stand for.

ghost use Rattle.std.specs.Prelude.{◌≡◌, Some};
ghost use Rattle.dex_abi.specs.Numbers as spec;

use crate::numbers::{ReplyNumbers, Wide};
use dex_types::{Address, BadData, Refusal, Reply};

/// The number of two halves.
pub(crate) fn whole(wide: Wide) -> u128
    ensures { result ≡ spec.whole wide }
{
    u128::from(wide.low) + 0x1_0000_0000_0000_0000 * u128::from(wide.high)
}

/// The rule of instruction data of a number, counted from 1.
fn rule_in(number: u8) -> Option<BadData>
    ensures { result ≡ spec.rule_in number }
{
    if number == 1 {
        Some(BadData::Short)
    } else if number == 2 {
        Some(BadData::Version)
    } else if number == 3 {
        Some(BadData::UnknownTag)
    } else if number == 4 {
        Some(BadData::RetiredTag)
    } else if number == 5 {
        Some(BadData::Length)
    } else if number == 6 {
        Some(BadData::ZeroField)
    } else if number == 7 {
        Some(BadData::BadEnum)
    } else {
        None
    }
}

/// The refusal of a reason that has no values.
fn bare_in(reason: u8) -> Option<Refusal>
    ensures { result ≡ spec.bare_in reason }
{
    if reason == 2 {
        Some(Refusal::MarketDisabled)
    } else if reason == 3 {
        Some(Refusal::NoAccount)
    } else if reason == 4 {
        Some(Refusal::AccountExists)
    } else if reason == 10 {
        Some(Refusal::TooManyOpenOrders)
    } else if reason == 11 {
        Some(Refusal::AskTooLarge)
    } else if reason == 12 {
        Some(Refusal::SequenceExhausted)
    } else if reason == 14 {
        Some(Refusal::OrderNotFound)
    } else if reason == 15 {
        Some(Refusal::SideMismatch)
    } else if reason == 17 {
        Some(Refusal::ClientIdZero)
    } else if reason == 18 {
        Some(Refusal::ClientIdNotFound)
    } else {
        None
    }
}

/// The refusal of a reason with an address.
fn addressed_in(reason: u8, address: Address) -> Option<Refusal>
    ensures { result ≡ spec.addressed_in reason address }
{
    if reason == 5 {
        Some(Refusal::NotOwner { owner: address })
    } else if reason == 6 {
        Some(Refusal::NotAuthority { authority: address })
    } else if reason == 7 {
        Some(Refusal::WrongMint { mint: address })
    } else if reason == 8 {
        Some(Refusal::WalletNotSigned { owner: address })
    } else if reason == 16 {
        Some(Refusal::OrderNotYours { owner: address })
    } else {
        None
    }
}

/// The refusal of a reason with numbers.
fn numbered_in(numbers: &ReplyNumbers) -> Option<Refusal>
    ensures { result ≡ spec.numbered_in numbers.now }
{
    let reason = numbers.reason;
    if reason == 9 {
        Some(Refusal::NotEmpty {
            slots: numbers.count,
            funds: whole(numbers.held),
        })
    } else if reason == 13 {
        Some(Refusal::TimePast {
            now: numbers.clock,
            max: numbers.latest,
        })
    } else if reason == 19 {
        Some(Refusal::WouldSelfTrade {
            order: whole(numbers.order),
        })
    } else if reason == 20 {
        Some(Refusal::BelowMinimum {
            got: numbers.amount,
        })
    } else if reason == 21 {
        Some(Refusal::EventQueueFull {
            needed: numbers.count,
            room: numbers.room,
        })
    } else if reason == 22 {
        Some(Refusal::InsufficientFunds {
            needed: numbers.amount,
            balance: numbers.balance,
        })
    } else if reason == 23 {
        Some(Refusal::BalanceTooLarge {
            balance: numbers.balance,
            amount: numbers.amount,
        })
    } else if reason == 24 {
        Some(Refusal::SumTooLarge {
            vault: whole(numbers.held),
            pending: whole(numbers.pending),
        })
    } else {
        None
    }
}

/// The refusal that numbers stand for.
fn refusal_in(numbers: &ReplyNumbers) -> Option<Refusal>
    ensures { result ≡ spec.refusal_in numbers.now }
{
    if numbers.reason == 1 {
        let rule = rule_in(numbers.rule)?;
        return Some(Refusal::BadData(rule));
    }
    let bare = bare_in(numbers.reason);
    let addressed = addressed_in(numbers.reason, Address(numbers.address));
    bare.or(addressed).or(numbered_in(numbers))
}

/// The reply that numbers stand for, if they are those of one.
pub fn reply_in(numbers: &ReplyNumbers) -> Option<Reply>
    ensures { result ≡ spec.reply_in numbers.now }
{
    let kind = numbers.kind;
    if kind == 0 {
        let why = refusal_in(numbers)?;
        Some(Reply::Refused(why))
    } else if kind == 1 {
        Some(Reply::Ordered {
            slot: numbers.slot,
            id: whole(numbers.order),
            lots: numbers.lots,
            pc: numbers.pc,
            fee: numbers.fee,
            rested: numbers.rested,
        })
    } else if kind == 2 {
        Some(Reply::Took {
            lots: numbers.lots,
            pc: numbers.pc,
            fee: numbers.fee,
        })
    } else if kind == 3 {
        Some(Reply::Cancelled(numbers.count))
    } else if kind == 4 {
        Some(Reply::Consumed(numbers.count))
    } else if kind == 5 {
        Some(Reply::Settled {
            coin: numbers.coin,
            pc: numbers.pc,
            referrer: numbers.referrer,
        })
    } else if kind == 6 {
        Some(Reply::Swept(numbers.pc))
    } else if kind == 7 {
        Some(Reply::Done)
    } else {
        None
    }
}
