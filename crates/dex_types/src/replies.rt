ghost use Rattle.std.specs.Fmt.{DisplaysOnOk};
ghost use Rattle.std.specs.Prelude.{Some};
ghost use Rattle.dex_types.specs.declared.replies.Reply.TheVariants.{Ordered};
ghost use Rattle.dex_types.specs.Text.{reply_text};

use crate::refusals::Refusal;
use crate::texts::{with_one, with_three};
use itoa::Buffer;
use std::fmt;

/// What an instruction is answered.
///
/// Of `Ordered` and `Took`, `lots` are the base lots that filled, `pc` the native quote of all fills and `fee` the
/// taker's fee on it; `rested` are the base lots that rest. `Settled` has the native amounts that were paid out.
#[derive(Clone, Copy, Debug, PartialEq, Eq)]
pub enum Reply {
    Ordered {
        slot: u8,
        id: u128,
        lots: u64,
        pc: u64,
        fee: u64,
        rested: u64,
    },
    Took {
        lots: u64,
        pc: u64,
        fee: u64,
    },
    /// How many orders left the book.
    Cancelled(u32),
    /// How many events were consumed.
    Consumed(u32),
    Settled {
        coin: u64,
        pc: u64,
        referrer: u64,
    },
    /// The native quote that was paid out of the market's fees.
    Swept(u64),
    /// It was done, and there is nothing to tell.
    Done,
    /// Nothing was changed.
    Refused(Refusal),
}

impl fmt::Display for Reply {
    ghost output = { λ r. Some (reply_text r) };

    fn fmt<W: fmt::Write>(&self, f: &mut fmt::Formatter<W>) -> fmt::Result {
        match *self {
            Reply::Ordered {
                id,
                slot,
                lots,
                pc,
                fee,
                rested,
            } => ordered(f, id, slot, lots, pc, fee, rested),
            Reply::Took { lots, pc, fee } => with_three(f, "ok take", lots, pc, fee),
            Reply::Cancelled(count) => with_one(f, "ok cancelled", count as u128),
            Reply::Consumed(count) => with_one(f, "ok consumed", count as u128),
            Reply::Settled { coin, pc, referrer } => {
                with_three(f, "ok settled", coin, pc, referrer)
            }
            Reply::Swept(pc) => with_one(f, "ok swept", pc as u128),
            Reply::Done => f.write_str("ok done"),
            Reply::Refused(why) => write!(f, "{why}"),
        }
    }
}

/// What an order that was taken prints.
fn ordered<W: fmt::Write>(
    f: &mut fmt::Formatter<W>,
    id: u128,
    slot: u8,
    lots: u64,
    pc: u64,
    fee: u64,
    rested: u64,
) -> fmt::Result
    ensures { DisplaysOnOk W.write_str_gives f.old result
        (Some (reply_text (Ordered slot id lots pc fee rested))) f.new }
{
    let mut buffer = Buffer::new();
    let id = buffer.format(id);
    write!(f, "ok order {id} {slot} {lots} {pc} {fee} {rested}")
}
