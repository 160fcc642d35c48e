//! What an event tells, and the flags that say so.

ghost use Rattle.std.specs.Prelude.{◌≡◌};
ghost use Rattle.dex_types.specs.QueuedEvent.{flags_of};
ghost use Rattle.dex_fills.specs.EventKinds.{kind_on};

use dex_types::{EventFlags, Side};

/// What an event tells, apart from the side of its order.
#[derive(Clone, Copy)]
pub enum Kind {
    MakerFill,
    TakerFill,
    PlainOut,
    ReleasingOut,
}

/// The native amounts of an event: what it releases, what is paid or stays locked, and the fee or the rebate.
#[derive(Clone, Copy)]
pub struct EventAmounts {
    pub released: u64,
    pub paid: u64,
    pub fee_or_rebate: u64,
}

/// The flags of an event of this kind, by the side of its order.
pub(crate) fn flags(kind: Kind, side: Side) -> u8
    ensures { result ≡ flags_of (kind_on kind side) }
{
    let flags = match (kind, side) {
        (Kind::MakerFill, Side::Bid) => EventFlags::MAKER_FILL_OF_BID,
        (Kind::MakerFill, Side::Ask) => EventFlags::MAKER_FILL_OF_ASK,
        (Kind::TakerFill, Side::Bid) => EventFlags::TAKER_FILL_OF_BID,
        (Kind::TakerFill, Side::Ask) => EventFlags::TAKER_FILL_OF_ASK,
        (Kind::PlainOut, Side::Bid) => EventFlags::OUT_OF_BID,
        (Kind::PlainOut, Side::Ask) => EventFlags::OUT_OF_ASK,
        (Kind::ReleasingOut, Side::Bid) => EventFlags::RELEASING_OUT_OF_BID,
        (Kind::ReleasingOut, Side::Ask) => EventFlags::RELEASING_OUT_OF_ASK,
    };
    flags.0
}
