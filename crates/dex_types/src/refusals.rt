ghost use Rattle.std.specs.Prelude.{Some};
ghost use Rattle.dex_types.specs.Text.{refusal_text};

use crate::addresses::Address;
use crate::instructions::BadData;
use crate::texts::{with_address, with_one, with_two};
use std::fmt;
use thiserror::Error;

/// Why an instruction was refused, with the values that were read. Where several reasons hold, the first in this
/// order is given. A refusal leaves all accounts as they were.
#[derive(Clone, Copy, PartialEq, Eq, Error)]
pub enum Refusal {
    /// The instruction data does not decode, by this rule.
    BadData(BadData),
    /// The market takes no new accounts and orders any more.
    MarketDisabled,
    /// An account or a wallet that the instruction uses is not named, or is not one of the market's that is open.
    NoAccount,
    /// The open-orders account was opened before, or the market was made before.
    AccountExists,
    /// The signer is not the account's owning person.
    NotOwner { owner: Address },
    /// The signer is not the market's authority.
    NotAuthority { authority: Address },
    /// A wallet is of another token, whose mint this is, than its role asks.
    WrongMint { mint: Address },
    /// A wallet that pays, or the discount wallet, has this owner, who is not the signer.
    WalletNotSigned { owner: Address },
    /// The account still has taken slots or native funds: both totals and the referrer part together.
    NotEmpty { slots: u32, funds: u128 },
    /// All 128 slots of the account are taken.
    TooManyOpenOrders,
    /// The native base of an ask is 2^64 or more.
    AskTooLarge,
    /// The market has given out all sequence numbers.
    SequenceExhausted,
    /// The clock is past the last time at which the order is taken.
    TimePast { now: i64, max: i64 },
    /// No order of this id rests.
    OrderNotFound,
    /// The order rests on the other side.
    SideMismatch,
    /// The order rests for this other open-orders account.
    OrderNotYours { owner: Address },
    /// A cancel by client id names the client id 0.
    ClientIdZero,
    /// No resting order of the account has the client id.
    ClientIdNotFound,
    /// The order would meet this one of its own trader, and has to abort.
    WouldSelfTrade { order: u128 },
    /// A take got fewer base lots, or less native quote, than it asked for at least.
    BelowMinimum { got: u64 },
    /// The instruction's events are more than the free places of the event queue.
    EventQueueFull { needed: u32, room: u32 },
    /// The native deposit is more than the wallet's balance.
    InsufficientFunds { needed: u64, balance: u64 },
    /// The wallet's balance would become 2^64 or more with this native amount.
    BalanceTooLarge { balance: u64, amount: u64 },
    /// The native amount in a vault and what pending fills still pay would be 2^64 or more together.
    SumTooLarge { vault: u128, pending: u128 },
}

/// For programmers it prints as for everybody.
impl fmt::Debug for Refusal {
    fn fmt<W: fmt::Write>(&self, f: &mut fmt::Formatter<W>) -> fmt::Result {
        write!(f, "{self}")
    }
}

impl fmt::Display for Refusal {
    ghost output = { λ r. Some (refusal_text r) };

    fn fmt<W: fmt::Write>(&self, f: &mut fmt::Formatter<W>) -> fmt::Result {
        match *self {
            Refusal::BadData(rule) => with_one(f, "refused 1 BadData", rule.number() as u128),
            Refusal::MarketDisabled => f.write_str("refused 2 MarketDisabled"),
            Refusal::NoAccount => f.write_str("refused 3 NoAccount"),
            Refusal::AccountExists => f.write_str("refused 4 AccountExists"),
            Refusal::NotOwner { owner } => with_address(f, "refused 5 NotOwner", owner),
            Refusal::NotAuthority { authority } => {
                with_address(f, "refused 6 NotAuthority", authority)
            }
            Refusal::WrongMint { mint } => with_address(f, "refused 7 WrongMint", mint),
            Refusal::WalletNotSigned { owner } => {
                with_address(f, "refused 8 WalletNotSigned", owner)
            }
            Refusal::NotEmpty { slots, funds } => {
                with_two(f, "refused 9 NotEmpty", slots as u128, funds)
            }
            Refusal::TooManyOpenOrders => f.write_str("refused 10 TooManyOpenOrders"),
            Refusal::AskTooLarge => f.write_str("refused 11 AskTooLarge"),
            Refusal::SequenceExhausted => f.write_str("refused 12 SequenceExhausted"),
            Refusal::TimePast { now, max } => write!(f, "refused 13 TimePast {now} {max}"),
            Refusal::OrderNotFound => f.write_str("refused 14 OrderNotFound"),
            Refusal::SideMismatch => f.write_str("refused 15 SideMismatch"),
            Refusal::OrderNotYours { owner } => with_address(f, "refused 16 OrderNotYours", owner),
            Refusal::ClientIdZero => f.write_str("refused 17 ClientIdZero"),
            Refusal::ClientIdNotFound => f.write_str("refused 18 ClientIdNotFound"),
            Refusal::WouldSelfTrade { order } => with_one(f, "refused 19 WouldSelfTrade", order),
            Refusal::BelowMinimum { got } => with_one(f, "refused 20 BelowMinimum", got as u128),
            Refusal::EventQueueFull { needed, room } => {
                with_two(f, "refused 21 EventQueueFull", needed as u128, room as u128)
            }
            Refusal::InsufficientFunds { needed, balance } => {
                with_two(
                    f,
                    "refused 22 InsufficientFunds",
                    needed as u128,
                    balance as u128,
                )
            }
            Refusal::BalanceTooLarge { balance, amount } => {
                with_two(
                    f,
                    "refused 23 BalanceTooLarge",
                    balance as u128,
                    amount as u128,
                )
            }
            Refusal::SumTooLarge { vault, pending } => {
                with_two(f, "refused 24 SumTooLarge", vault, pending)
            }
        }
    }
}
