//! Laws of consuming events over bytes. A law is a function without a body, and its clauses are the law.

ghost use Rattle.std.specs.Prelude.{◌≡◌, ℕ, ◌+◌, ◌≤◌, List, length, sum};
ghost use Rattle.dex_types.specs.declared.addresses.Address.{Address};
ghost use Rattle.dex_types.specs.Market.{Market};
ghost use Rattle.dex_types.specs.Payment.{after_crank, consumable};
ghost use Rattle.dex_types.specs.QueuedEvent.{QueuedEvent};
ghost use Rattle.dex_types.specs.Soundness.{IsSound};
ghost use Rattle.dex_ring.specs.Ring.{events_of};
ghost use Rattle.dex_accounts.specs.Parts.{AreOf, MarketParts};
ghost use Rattle.dex_crank.specs.PaidBytes.{CrankBytes, after_calls, paid_bytes};
ghost use Rattle.dex_crank.specs.Parts.{crank_given, with_cranked};

/// What consuming events leaves of the queue's and the accounts' bytes depends on how many are consumed alone. So any
/// two ways to split a crank into calls that consume as many events leave the same bytes.
pub fn a_crank_of_bytes_is_any_split_of_it()
    ensures sums { (first later : ℕ) (bytes : CrankBytes)
        → paid_bytes later (paid_bytes first bytes) ≡ paid_bytes (first + later) bytes }
    ensures one_call { (counts : List ℕ) (bytes : CrankBytes)
        → after_calls counts bytes ≡ paid_bytes (sum counts) bytes }
    ensures same { (counts others : List ℕ) (bytes : CrankBytes) → sum counts ≡ sum others
        → after_calls counts bytes ≡ after_calls others bytes }
{}

/// The parts of a sound market in which events were consumed are those of the market after them. How many a call
/// consumes is the market's, and never more than are pending.
pub fn a_crank_of_bytes_leaves_the_market_behind_its_events()
    ensures leaves { (parts : MarketParts) (m : Market) (count : ℕ) → IsSound m → AreOf parts m
        → count ≤ length m.events
        → AreOf (with_cranked (paid_bytes count (crank_given parts)) parts) (after_crank count m) }
    ensures count { (parts : MarketParts) (m : Market) (limit : ℕ) (named : List Address) → AreOf parts m
        → consumable limit named (events_of parts.events) ≡ consumable limit named m.events }
    ensures within { (limit : ℕ) (named : List Address) (events : List QueuedEvent)
        → consumable limit named events ≤ length events }
{}
