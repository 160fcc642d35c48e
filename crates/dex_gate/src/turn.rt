//! A turn: the value, for one pass alone. The value may be taken out, and has to be put back before the turn can be
//! left.
ghost use Rattle.std.specs.Prelude.{◌≡◌};
ghost use Rattle.std.specs.Borrow.{Lends, sem};
ghost use Rattle.dex_gate.specs.contracts.turn.Turn.{the_row};

use crate::journaled::Journaled;
use crate::pass::Pass;
use std::marker::Model;
use std::snapshot::Snapshot;

/// The value while a turn is out. It is not `Drop`: give it back by `Gate::leave`. Between the two, `take` gives the
/// value itself, and `Away::put` makes the turn again of it.
pub struct Turn<V: Journaled> {
    pub(crate) value: V,
    pub(crate) start: Snapshot<V>,
    pub(crate) pass: Snapshot<Pass<V>>,
}

impl<V: Journaled> Model for Turn<V> {
    ghost use Rattle.dex_gate.specs.TurnView.{TurnView};

    ghost Value = { TurnView V V.Entry V.Origin };

    ghost view = { λ t. record {
      gate = t.pass.value.gate;
      number = t.pass.value.number;
      start = V.entries t.start.value;
      value = t.value;
    } };
}

impl<V: Journaled> Turn<V> {
    /// Lends the value. What is written through it is what `Gate::leave` gives back.
    pub fn value(&mut self) -> &mut V
        ensures* writes_back { sem 𝓛 (Lends (the_row V.row V.Entry.row V.Origin.row V.Journaled) V.row self.entry
            result (λ w. record self.old { value = w })) }
        ensures value { result.now ≡ self.old.value }
    {
        &mut self.value
    }

    /// Takes the value out. What is left says whose turn it is, so that `Away::put` can give the turn back.
    pub fn take(self) -> (V, Away<V>)
        ensures value { result.0 ≡ self.value }
        ensures turn { result.1 ≡ record { gate = self.gate; number = self.number; start = self.start } }
    {
        let Self { value, start, pass } = self;
        (value, Away { start, pass })
    }
}

/// A turn whose value is out: it has to come back before the turn can be left. It is not `Drop`, like the turn.
pub struct Away<V: Journaled> {
    pub(crate) start: Snapshot<V>,
    pub(crate) pass: Snapshot<Pass<V>>,
}

impl<V: Journaled> Model for Away<V> {
    ghost use Rattle.dex_gate.specs.AwayView.{AwayView};

    ghost Value = { AwayView V.Entry V.Origin };

    ghost view = { λ a. record {
      gate = a.pass.value.gate;
      number = a.pass.value.number;
      start = V.entries a.start.value;
    } };
}

impl<V: Journaled> Away<V> {
    /// The turn, with this value.
    pub fn put(self, value: V) -> Turn<V>
        ensures { result ≡ record { gate = self.gate; number = self.number; start = self.start; value = value } }
    {
        let Self { start, pass } = self;
        Turn { value, start, pass }
    }
}
