//! A reply told as numbers.

ghost use Rattle.std.specs.Prelude.{◌≡◌, Some};
ghost use Rattle.dex_abi.specs.Numbers as spec;
ghost use Rattle.dex_types.specs.declared.replies.Reply.TheVariants.{Refused};

use crate::numbers::{ReplyNumbers, Wide};
use dex_types::{Address, Refusal, Reply};

/// 2 to the power 64.
const HALF: u128 = 0x1_0000_0000_0000_0000;

/// A number by its halves.
pub(crate) fn wide(number: u128) -> Wide
    ensures whole { spec.whole result ≡ number }
    ensures halves { result ≡ spec.wide number }
{
    Wide {
        low: (number % HALF) as u64,
        high: (number / HALF) as u64,
    }
}

/// The numbers of no reply: all are 0.
pub(crate) fn blank() -> ReplyNumbers
    ensures { result ≡ spec.blank }
{
    let zero = Wide { low: 0, high: 0 };
    ReplyNumbers {
        kind: 0,
        reason: 0,
        rule: 0,
        slot: 0,
        count: 0,
        room: 0,
        lots: 0,
        pc: 0,
        fee: 0,
        rested: 0,
        coin: 0,
        referrer: 0,
        amount: 0,
        balance: 0,
        clock: 0,
        latest: 0,
        order: zero,
        held: zero,
        pending: zero,
        address: [0; 32],
    }
}

/// What is told of an instruction that names too many accounts.
pub(crate) fn too_many() -> ReplyNumbers
    ensures { result ≡ spec.too_many }
{
    ReplyNumbers {
        kind: 255,
        ..blank()
    }
}

/// A refusal that has no values.
fn bare(reason: u8) -> ReplyNumbers
    ensures { result ≡ spec.bare reason }
{
    ReplyNumbers { reason, ..blank() }
}

/// A refusal with an address.
fn of_address(reason: u8, address: Address) -> ReplyNumbers
    ensures { result ≡ spec.of_address reason address }
{
    let Address(address) = address;
    ReplyNumbers {
        reason,
        address,
        ..blank()
    }
}

/// A refusal with native amounts of a wallet.
fn of_amounts(reason: u8, amount: u64, balance: u64) -> ReplyNumbers
    ensures { result ≡ spec.of_amounts reason amount balance }
{
    ReplyNumbers {
        reason,
        amount,
        balance,
        ..blank()
    }
}

/// A refusal as numbers.
fn refused(why: Refusal) -> ReplyNumbers
    ensures stands { spec.reply_in result ≡ Some (Refused why) }
    ensures exact { result ≡ spec.refused_numbers why }
{
    match why {
        Refusal::BadData(rule) => ReplyNumbers {
            reason: 1,
            rule: rule.number(),
            ..blank()
        },
        Refusal::MarketDisabled => bare(2),
        Refusal::NoAccount => bare(3),
        Refusal::AccountExists => bare(4),
        Refusal::NotOwner { owner } => of_address(5, owner),
        Refusal::NotAuthority { authority } => of_address(6, authority),
        Refusal::WrongMint { mint } => of_address(7, mint),
        Refusal::WalletNotSigned { owner } => of_address(8, owner),
        Refusal::NotEmpty { slots, funds } => ReplyNumbers {
            reason: 9,
            count: slots,
            held: wide(funds),
            ..blank()
        },
        Refusal::TooManyOpenOrders => bare(10),
        Refusal::AskTooLarge => bare(11),
        Refusal::SequenceExhausted => bare(12),
        Refusal::TimePast { now, max } => ReplyNumbers {
            reason: 13,
            clock: now,
            latest: max,
            ..blank()
        },
        Refusal::OrderNotFound => bare(14),
        Refusal::SideMismatch => bare(15),
        Refusal::OrderNotYours { owner } => of_address(16, owner),
        Refusal::ClientIdZero => bare(17),
        Refusal::ClientIdNotFound => bare(18),
        Refusal::WouldSelfTrade { order } => ReplyNumbers {
            reason: 19,
            order: wide(order),
            ..blank()
        },
        Refusal::BelowMinimum { got } => of_amounts(20, got, 0),
        Refusal::EventQueueFull { needed, room } => ReplyNumbers {
            reason: 21,
            count: needed,
            room,
            ..blank()
        },
        Refusal::InsufficientFunds { needed, balance } => of_amounts(22, needed, balance),
        Refusal::BalanceTooLarge { balance, amount } => of_amounts(23, amount, balance),
        Refusal::SumTooLarge { vault, pending } => ReplyNumbers {
            reason: 24,
            held: wide(vault),
            pending: wide(pending),
            ..blank()
        },
    }
}

/// A reply as numbers, which stand for it. A field that its kind does not name is 0.
pub fn numbers_of(reply: Reply) -> ReplyNumbers
    ensures stands { spec.reply_in result ≡ Some reply }
    ensures exact { result ≡ spec.numbers_of reply }
{
    match reply {
        Reply::Ordered {
            slot,
            id,
            lots,
            pc,
            fee,
            rested,
        } => ReplyNumbers {
            kind: 1,
            order: wide(id),
            slot,
            lots,
            pc,
            fee,
            rested,
            ..blank()
        },
        Reply::Took { lots, pc, fee } => ReplyNumbers {
            kind: 2,
            lots,
            pc,
            fee,
            ..blank()
        },
        Reply::Cancelled(count) => ReplyNumbers {
            kind: 3,
            count,
            ..blank()
        },
        Reply::Consumed(count) => ReplyNumbers {
            kind: 4,
            count,
            ..blank()
        },
        Reply::Settled { coin, pc, referrer } => ReplyNumbers {
            kind: 5,
            coin,
            pc,
            referrer,
            ..blank()
        },
        Reply::Swept(pc) => ReplyNumbers {
            kind: 6,
            pc,
            ..blank()
        },
        Reply::Done => ReplyNumbers { kind: 7, ..blank() },
        Reply::Refused(why) => refused(why),
    }
}
