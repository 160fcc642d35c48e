//! Bells: who waits for a turn sleeps on a bell of its own, so that the end of a turn rings for the two who are next
//! alone.
use crate::PASSES;
use std::sync::Wait;
use std::sync::atomic::{AtomicU64, Ordering};

/// What a bell holds while somebody may sleep on it, and still where a waiter found its turn come before it slept. Else
/// it holds 0.
const SET: u64 = 1;

/// A bell for each ticket that can be out at once: a pass has at most one, and the tickets that are out follow each
/// other.
///
/// No waiter is left asleep. All steps on words are sequentially consistent. Who waits sets its bell and then looks at
/// the turn; who leaves passes the turn on and then looks at the bell of the next ticket. So the one finds its turn
/// come, or the other finds the bell set, takes it back and wakes; where it does so before the sleep began, the sleep
/// finds the bell not set and returns. Whoever takes a bell back wakes, also one who comes late and takes back the bell
/// of a later ticket. Who is woken looks again from the start.
#[derive(Drop)]
pub(crate) struct Bells {
    words: [AtomicU64; PASSES],
}

impl Bells {
    /// Bells of which none is set.
    pub(crate) fn new() -> Bells {
        Bells {
            words: [0; PASSES].map(|zero| AtomicU64::new(zero)),
        }
    }

    /// The bell of a ticket.
    fn of(&self, ticket: u64) -> &AtomicU64 {
        &self.words[(ticket % PASSES as u64) as usize]
    }

    /// Sets the bell of a ticket, before the last look at the turn and the sleep.
    pub(crate) fn set(&self, ticket: u64) {
        self.of(ticket).store(SET, Ordering::SeqCst);
    }

    /// Sleeps while the bell of a ticket is set.
    pub(crate) fn sleep<R: Wait>(&self, rt: &R, ticket: u64) {
        self.of(ticket).park(rt, SET as u32);
    }

    /// Wakes who has the next turn, and who has the one after it, so that this one is awake and looks when its turn
    /// comes.
    pub(crate) fn ring(&self, next: u64) {
        self.wake(next);
        self.wake(next.wrapping_add(1));
    }

    /// Takes the bell of a ticket back, where it is set, and wakes who sleeps on it.
    pub(crate) fn wake(&self, ticket: u64) {
        let bell = self.of(ticket);
        if bell.load(Ordering::SeqCst) == SET && bell.swap(0, Ordering::SeqCst) == SET {
            bell.wake_all();
        }
    }
}
