//! A swap at a bank.

ghost use Rattle.std.specs.Prelude.{IfSome};
ghost use Rattle.dex_types.specs.Rows.{row_of};
ghost use Rattle.dex_script_types.specs.Places.{IsPlaced};
ghost use Rattle.dex_turns.specs.Seats.{IsSeat, IsSeatOf};
ghost use Rattle.dex_turns.specs.Submitted.{AreLegReplies, AreNext, HaveSubmitted};

use dex_act::AsRow;
use dex_io::Pace;
use dex_turns::{Bank, LaneSeat};
use dex_types::Reply;
use std::sync::Wait;

/// The two legs of a swap act at a bank, both or neither, and these are their markets' replies.
///
/// The seat is one of the bank, and the legs are the next two rows of its lane. They draw and wait for the turns of
/// both markets and of all wallets that they name, are both decided before either acts, and leave the turns again.
/// Where the legs come without the places of these, they are looked up. It takes no memory.
pub fn swap_two<R: Wait, W: AsRow, P: Pace>(
    rt: &R,
    bank: &Bank,
    seat: &mut LaneSeat,
    first: &W,
    second: &W,
    pace: &P,
) -> (Reply, Reply)
    requires seat { IsSeatOf bank.now seat.old }
    requires legs { AreNext (row_of (W.is first.now)) (row_of (W.is second.now)) seat.old }
    requires first { IfSome (W.at first.now) (IsPlaced bank.now.script.start (row_of (W.is first.now))) }
    requires second { IfSome (W.at second.now) (IsPlaced bank.now.script.start (row_of (W.is second.now))) }
    ensures submitted { HaveSubmitted (row_of (W.is first.entry.now)) (row_of (W.is second.entry.now)) result
        seat.old seat.new }
    ensures replies { AreLegReplies result.0 result.1 }
    ensures bank { IsSeatOf bank.now seat.new }
    ensures kept { IsSeat seat.new }
{
    bank.submit_two(rt, seat, first, second, pace)
}
