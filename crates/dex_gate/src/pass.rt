//! A pass: the right to draw tickets, and what its holder has seen and done.
use crate::board::BoardSeat;
use crate::journaled::Journaled;
use std::marker::Model;

/// A pass of one gate. It may go from thread to thread, and one thread at a time uses it.
pub struct Pass<V: Journaled> {
    pub(crate) seat: BoardSeat<V>,
    pub(crate) ticket: u64,
}

impl<V: Journaled> Model for Pass<V> {
    ghost use Rattle.dex_gate.specs.PassView.{PassView};

    ghost Value = { PassView V.Entry V.Origin };

    ghost use Rattle.dex_gate.specs.Seats.{pass_view, IsPass};

    ghost view = { λ p. pass_view p.seat.table_id p.seat.me.0 };

    ghost invariant = { λ p. IsPass p.ticket p.seat.me };
}

impl<V: Journaled> Drop for Pass<V> {
    fn drop(self) {
        let Self {
            seat: _seat,
            ticket: _,
        } = self;
    }
}

impl<V: Journaled> Pass<V> {
    ghost use Rattle.dex_gate.specs.Seats.{IsSeatOf};

    // Its seat alone.
    pub(crate) fn into_seat(self) -> BoardSeat<V>
        ensures { IsSeatOf self result.table_id result.me }
    {
        let Self { seat, ticket: _ } = self;
        seat
    }
}
