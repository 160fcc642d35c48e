//! A door: one at a time is behind it, in the order in which they came, for as long as it stays.
use crate::bells::Bells;
use std::sync::Wait;
use std::sync::atomic::{AtomicU64, Ordering};

/// A door before gates. Who takes turn after turn comes in first and goes out behind the last, so that nobody else is
/// in its way. A gate asks for no door and promises as much without one: a door is about time alone, and no clause
/// speaks of it. At most as many may stand at a door at once as a gate has passes.
///
/// No waiter is left asleep, for the reason that `Bells` gives: who waits sets its own bell and then looks, and who
/// goes out lets the next one in and then takes its bell back. Who waits sleeps at once, since a stay is long.
#[derive(Drop)]
pub struct Door {
    came: AtomicU64,
    out: AtomicU64,
    bells: Bells,
}

impl Door {
    /// A door behind which nobody is.
    pub fn new() -> Door {
        Door {
            came: AtomicU64::new(0),
            out: AtomicU64::new(0),
            bells: Bells::new(),
        }
    }

    /// Waits until all who came before have gone out.
    pub fn come_in<R: Wait>(&self, rt: &R) {
        let ticket = self.came.fetch_add(1, Ordering::SeqCst);
        for _ in rt.forever() {
            if self.is_open_to(ticket) {
                return;
            }
            self.bells.set(ticket);
            if self.is_open_to(ticket) {
                return;
            }
            self.bells.sleep(rt, ticket);
        }
    }

    /// Lets the next one in. Who came in calls it once.
    pub fn go_out(&self) {
        let out = self.out.fetch_add(1, Ordering::SeqCst);
        self.bells.wake(out.wrapping_add(1));
    }

    // Whether all tickets before this one have gone out.
    fn is_open_to(&self, ticket: u64) -> bool {
        self.out.load(Ordering::SeqCst) == ticket
    }
}
