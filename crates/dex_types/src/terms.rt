ghost use Rattle.std.specs.Prelude.{◌≡◌};
ghost use Rattle.dex_types.specs.Side as book;

use std::alloc::{AllocError, AllocFailed};
use thiserror::Error;

/// A side of the book: bids buy base lots, asks sell them.
#[derive(Clone, Copy, Debug, PartialEq, Eq, Hash)]
pub enum Side {
    Bid,
    Ask,
}

impl Side {
    /// The other side, which an order of this side meets.
    pub fn opposite(self) -> Side
        ensures { result ≡ book.opposite self }
    {
        match self {
            Side::Bid => Side::Ask,
            Side::Ask => Side::Bid,
        }
    }
}

/// What becomes of the part of an order that does not fill at once (Serum DEX v3, `OrderType`).
#[derive(Clone, Copy, Debug, PartialEq, Eq, Hash)]
pub enum OrderType {
    /// It rests in the book, where nothing there crosses it any more.
    Limit,
    /// It is given up (immediate or cancel).
    Ioc,
    /// The order fills nothing, and rests where no opposite order crosses it.
    PostOnly,
}

/// What happens where an order meets one of its own trader's (Serum DEX v3, `SelfTradeBehavior`).
#[derive(Clone, Copy, Debug, PartialEq, Eq, Hash)]
pub enum SelfTrade {
    /// Both orders lose the lesser of their lots.
    Decrement,
    /// The resting order leaves the book.
    CancelProvide,
    /// The new order is refused.
    Abort,
}

/// The fee tier of a trader, by the SRM or MSRM that the discount wallet holds.
#[derive(Clone, Copy, Debug, PartialEq, Eq, Hash)]
pub enum Tier {
    Base,
    Srm2,
    Srm3,
    Srm4,
    Srm5,
    Srm6,
    Msrm,
}

/// The program whose fee table holds: the Serum DEX, version 3, or OpenBook v1, which carried it on.
#[derive(Clone, Copy, Debug, PartialEq, Eq, Hash)]
pub enum Program {
    Serum,
    OpenBook,
}

/// A market's lot sizes: the native amounts of base (coin) and quote (pc) in one lot.
#[derive(Clone, Copy, Debug, PartialEq, Eq, Hash)]
pub struct Lots {
    pub coin: u64,
    pub pc: u64,
}

/// There was not enough memory. Each call says what that leaves.
#[derive(Clone, Copy, Debug, PartialEq, Eq, Error)]
#[error("no memory")]
pub struct NoMemory;

impl From<AllocError> for NoMemory {
    fn from(_error: AllocError) -> NoMemory {
        NoMemory
    }
}

impl<T: Drop> From<AllocFailed<T>> for NoMemory {
    fn from(_error: AllocFailed<T>) -> NoMemory {
        NoMemory
    }
}
