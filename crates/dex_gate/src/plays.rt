//! What each step on the table tells its pass.
use crate::board::View;
use crate::journaled::Journaled;
use atomic_table::{Join, Play, Split};
use std::marker::PhantomData;

/// Draws a ticket.
pub(crate) struct Draw;

impl<S, E, O> Play<S, View<E, O>> for Draw {
    ghost use Rattle.dex_gate.specs.Steps.{Draws};

    ghost then = { Draws };
}

/// Looks whether a ticket's turn has come, and then takes the slot.
pub(crate) struct Look<V> {
    of: PhantomData<V>,
}

impl<V: Journaled> Play<Option<V>, View<V::Entry, V::Origin>> for Look<V> {
    ghost use Rattle.dex_gate.specs.Steps.{Looks};

    ghost then = { Looks V.entries V.lane V.origin };
}

/// Passes the turn on, and gives the slot back.
pub(crate) struct PassOn<V> {
    of: PhantomData<V>,
}

impl<V: Journaled> Play<Option<V>, View<V::Entry, V::Origin>> for PassOn<V> {
    ghost use Rattle.dex_gate.specs.Steps.{PassesOn};

    ghost then = { PassesOn V.entries };
}

/// Hands out a number.
pub(crate) struct HandOut;

impl<E, O> Split<View<E, O>> for HandOut {
    ghost use Rattle.dex_gate.specs.Steps.{handing, handed};

    ghost left = { handing };

    ghost right = { handed };
}

/// Takes in the cards of another pass.
pub(crate) struct TakeIn;

impl<E, O> Join<View<E, O>> for TakeIn {
    ghost use Rattle.dex_gate.specs.Steps.{joined, spent};

    ghost both = { joined };

    ghost spent = { spent };
}
