//! The table that the passes share. Word 0 counts the tickets drawn and word 1 the turns passed on, both from the
//! length of the opening list. The slot holds the value, or nothing while a turn is out.
use crate::journaled::Journaled;
use crate::stage::Stage;
use atomic_table::{Seat, Shared, Table, TableRule};
use std::alloc::Global;
use std::collections::LinkedList;
use std::marker::PhantomData;
use std::snapshot::Snapshot;

/// The word that counts the tickets drawn.
pub(crate) const DRAWN: usize = 0;
/// The word that counts the turns passed on.
pub(crate) const SERVED: usize = 1;

/// What stays of one pass's number: the numbers that it may hand out, what it has seen and what it made. No value of it
/// is made.
pub struct Card<E, O> {
    pub number: u64,
    /// The first number to hand out, where it is below `until`.
    pub next: u64,
    pub until: u64,
    pub origin: O,
    pub opening: LinkedList<E>,
    pub seen: LinkedList<E>,
    pub mine: LinkedList<E>,
}

/// What a seat at the table knows: one card for each number that it keeps, and its ticket. No value of it is made.
pub struct View<E, O> {
    pub cards: LinkedList<Card<E, O>>,
    pub ticket: u64,
    pub stage: Stage<E>,
}

/// What the rule knows of the start: the value that was given, and how many passes there may be.
pub struct Opened<V> {
    pub value: Snapshot<V>,
    pub passes: u32,
}

impl<V> Drop for Opened<V> {
    fn drop(self) {
        let Self {
            value: _value,
            passes: _,
        } = self;
    }
}

/// The gate's rule.
pub struct TurnRule<V> {
    of: PhantomData<V>,
}

impl<V: Journaled> TableRule<Option<V>, View<V::Entry, V::Origin>, Opened<V>> for TurnRule<V> {
    ghost use Rattle.dex_gate.specs.Rule.{Kept, first_view};

    ghost holds = { λ key. Kept V.entries V.lane V.origin key.value.value key.passes };

    ghost first = { λ key. first_view V.entries V.origin key.value.value key.passes };
}

pub(crate) type Board<V> = Table<
    Option<V>,
    View<<V as Journaled>::Entry, <V as Journaled>::Origin>,
    Opened<V>,
    TurnRule<V>,
    Global,
>;

pub(crate) type Top<V> = Shared<
    Option<V>,
    View<<V as Journaled>::Entry, <V as Journaled>::Origin>,
    Opened<V>,
    TurnRule<V>,
>;

pub(crate) type BoardSeat<V> = Seat<
    Option<V>,
    View<<V as Journaled>::Entry, <V as Journaled>::Origin>,
>;
