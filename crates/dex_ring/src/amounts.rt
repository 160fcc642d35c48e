//! Laws of the events of a queue. A law is a function without a body, and its clauses are the law.

ghost use Rattle.std.specs.Prelude.{ℕ, ◌≡◌, List};
ghost use Rattle.std.specs.List.{All};
ghost use Rattle.dex_fields.specs.Bytes.{AreBytes};
ghost use Rattle.dex_types.specs.QueuedEvent.{QueuedEvent};
ghost use Rattle.dex_ring.specs.Appended.{AmountsFit, appended};
ghost use Rattle.dex_ring.specs.Ring.{IsEventQueue, events_of, ring_of};

/// Each native amount of a pending event is below 2^64, and so is each of an event that was appended.
pub fn amounts_of_events_fit()
    ensures pending { (bytes : List ℕ) → AreBytes bytes → IsEventQueue bytes
        → All AmountsFit (events_of bytes) }
    ensures appended { (events : List QueuedEvent) (old : List ℕ) (new : List ℕ)
        → AreBytes new → IsEventQueue new
        → ring_of new ≡ appended events (ring_of old) → All AmountsFit events }
{}
