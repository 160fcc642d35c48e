//! The two sums of pending fills, counted.

ghost use Rattle.std.specs.Prelude.{◌≡◌};
ghost use Rattle.dex_ring.specs.PendingFills.{pending_fills_of};
ghost use Rattle.dex_ring.specs.Ring.{IsEventQueue, ring_of};

use dex_fills::pending_fills;
use dex_ring::{PendingFills, RingRef};

/// What pending makers' fills are still to take off their owners' totals, counted from an event queue: native base, and
/// native quote.
pub fn pending(events: &[u8]) -> PendingFills
    requires { IsEventQueue events.now }
    ensures { result ≡ pending_fills_of (ring_of events.now).events }
{
    pending_fills(&RingRef { bytes: events })
}
