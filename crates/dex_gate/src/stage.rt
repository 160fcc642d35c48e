//! What a pass is doing.
use std::collections::LinkedList;

/// Whether a pass holds a ticket, and whether the ticket's turn is out. It is for clauses: no value of it is made.
pub enum Stage<E> {
    /// It holds no ticket.
    Idle,
    /// It holds a ticket, whose turn is not out.
    Waiting,
    /// Its turn is out. The value's list at the start of the turn.
    Out(LinkedList<E>),
}
