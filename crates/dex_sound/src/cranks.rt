//! Laws of consuming events.

ghost use Rattle.std.specs.Prelude.{◌≡◌, ℕ, ◌+◌, ◌≤◌, ◌<◌, List, ◌∷◌, Ok, None, IsTrue, false, min, length, take, drop};
ghost use Rattle.std.specs.List.{All};
ghost use Rattle.dex_types.specs.declared.addresses.Address.{Address};
ghost use Rattle.dex_types.specs.declared.instructions.Ix.TheVariants.{ConsumeEvents};
ghost use Rattle.dex_types.specs.declared.rows.Seen.{Seen};
ghost use Rattle.dex_types.specs.Market.{Market};
ghost use Rattle.dex_types.specs.Payment.{consumable, is_named, after_crank};
ghost use Rattle.dex_types.specs.QueuedEvent.{QueuedEvent};
ghost use Rattle.dex_types.specs.Requests.{Request};
ghost use Rattle.dex_types.specs.Why.{why};
ghost use Rattle.dex_sound.specs.Cranks.{Crank, after_cranks, consumed_by};

/// Cranks leave what one call leaves that consumes as many events as they do together. So any two ways to crank that
/// consume the same events leave the same market.
pub fn a_crank_is_any_split_of_it()
    ensures sums { (first later : ℕ) (m : Market) → after_crank later (after_crank first m)
        ≡ after_crank (first + later) m }
    ensures one_call { (cranks : List Crank) (m : Market)
        → after_cranks cranks m ≡ after_crank (consumed_by cranks m) m }
    ensures same { (cranks others : List Crank) (m : Market) → consumed_by cranks m ≡ consumed_by others m
        → after_cranks cranks m ≡ after_cranks others m }
{}

/// A crank consumes no more events than there are and than it may, and none but those of owners that it names. Where it
/// could consume one more, it does not name that one's owner; so it consumes as many as it may where it names every
/// owner.
pub fn a_crank_consumes_what_it_may()
    ensures limit { (limit : ℕ) (named : List Address) (events : List QueuedEvent)
        → consumable limit named events ≤ limit }
    ensures within { (limit : ℕ) (named : List Address) (events : List QueuedEvent)
        → consumable limit named events ≤ length events }
    ensures names { (limit : ℕ) (named : List Address) (events : List QueuedEvent) →
        All (λ (event : QueuedEvent). IsTrue (is_named event.owner named))
        (take (consumable limit named events) events) }
    ensures stops { (limit : ℕ) (named : List Address) (events later : List QueuedEvent) (next : QueuedEvent) →
        drop (consumable limit named events) events ≡ next ∷ later → consumable limit named events < limit
        → is_named next.owner named ≡ false }
    ensures all_named { (limit : ℕ) (named : List Address) (events : List QueuedEvent) →
        All (λ (event : QueuedEvent). IsTrue (is_named event.owner named)) events
        → min limit (length events) ≤ consumable limit named events }
{}

/// A crank is never refused.
pub fn a_crank_is_never_refused()
    ensures { (request : Request) (seen : Seen) (m : Market) (limit : ℕ)
        → request.instruction ≡ Ok (ConsumeEvents limit) → why request seen m ≡ None }
{}
