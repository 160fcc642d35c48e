//! What an event tells, by its flags.

ghost use Rattle.std.specs.Prelude.{◌≡◌, ◌+◌, ◌<◌, ◌^◌};
ghost use Rattle.dex_types.specs.Owed.{leaving};
ghost use Rattle.dex_types.specs.QueuedEvent.{decoded_event, kind_of};
ghost use Rattle.dex_types.specs.Side.{Coin, Pc};
ghost use Rattle.dex_types.specs.Soundness.{is_final};
ghost use Rattle.dex_crank.specs.Funds.{told_kind};

use dex_ring::PendingFills;
use dex_types::{Event, EventFlags, Side};

const FILLED_ASK: u8 = EventFlags::MAKER_FILL_OF_ASK.0;

const FILLED_BID: u8 = EventFlags::MAKER_FILL_OF_BID.0;

const TAKEN_BY_ASK: u8 = EventFlags::TAKER_FILL_OF_ASK.0;

const TAKEN_BY_BID: u8 = EventFlags::TAKER_FILL_OF_BID.0;

const OUT_OF_ASK: u8 = EventFlags::OUT_OF_ASK.0;

const OUT_OF_BID: u8 = EventFlags::OUT_OF_BID.0;

const RELEASED_ASK: u8 = EventFlags::RELEASING_OUT_OF_ASK.0;

/// What an event tells, by the side of its order.
#[derive(Clone, Copy, Debug, PartialEq, Eq)]
pub enum Kind {
    /// A fill of a resting order.
    MakerFill(Side),
    /// All fills of a new order in one.
    TakerFill(Side),
    /// An order is gone, with nothing to release.
    PlainOut(Side),
    /// An order is gone or smaller, and releases what that unlocks.
    ReleasingOut(Side),
}

/// The kind of an event with these flags.
pub fn kind_of(flags: u8) -> Kind
    ensures { told_kind result ≡ kind_of flags }
{
    match flags {
        FILLED_ASK => Kind::MakerFill(Side::Ask),
        FILLED_BID => Kind::MakerFill(Side::Bid),
        TAKEN_BY_ASK => Kind::TakerFill(Side::Ask),
        TAKEN_BY_BID => Kind::TakerFill(Side::Bid),
        OUT_OF_ASK => Kind::PlainOut(Side::Ask),
        OUT_OF_BID => Kind::PlainOut(Side::Bid),
        RELEASED_ASK => Kind::ReleasingOut(Side::Ask),
        _ => Kind::ReleasingOut(Side::Bid),
    }
}

/// Whether the event is the last of its order: an out that leaves nothing locked.
pub fn is_final(event: &Event) -> bool
    ensures { result ≡ is_final (decoded_event event.now) }
{
    match kind_of(event.flags) {
        Kind::PlainOut(_) | Kind::ReleasingOut(_) => event.paid == 0,
        Kind::MakerFill(_) | Kind::TakerFill(_) => false,
    }
}

/// The sums with what the event is still to take off its owner's total: what a filled maker pays.
pub fn with_fill(sums: PendingFills, event: &Event) -> PendingFills
    requires coin { sums.coin < 2 ^ 127 }
    requires pc { sums.pc < 2 ^ 127 }
    ensures coin { result.coin ≡ sums.coin + leaving Coin (decoded_event event.now) }
    ensures pc { result.pc ≡ sums.pc + leaving Pc (decoded_event event.now) }
    ensures coin_small { result.coin < sums.coin + 2 ^ 64 }
    ensures pc_small { result.pc < sums.pc + 2 ^ 64 }
{
    let paid = u128::from(event.paid);
    match kind_of(event.flags) {
        Kind::MakerFill(Side::Ask) => PendingFills {
            coin: sums.coin + paid,
            ..sums
        },
        Kind::MakerFill(Side::Bid) => PendingFills {
            pc: sums.pc + paid,
            ..sums
        },
        _ => sums,
    }
}
