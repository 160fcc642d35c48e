//! Laws of what orders lock, and of the slots that they take.

ghost use Rattle.std.specs.Prelude.{◌≡◌, ℕ, ◌+◌, ◌<◌, [], ◌∷◌, All};
ghost use Rattle.dex_types.specs.declared.addresses.Address.{Address};
ghost use Rattle.dex_types.specs.declared.orders.Order.{Order};
ghost use Rattle.dex_types.specs.declared.terms.Lots.{Lots};
ghost use Rattle.dex_types.specs.NewOrder.{last_events};
ghost use Rattle.dex_types.specs.Side.{price_of};
ghost use Rattle.dex_types.specs.Owed.{order_lock};
ghost use Rattle.dex_laws.specs.Locks.{locked, unlocked};
ghost use Rattle.dex_laws.specs.Meetings.{EachMeeting};
ghost use Rattle.dex_laws.specs.Places.{rest_at, freed_at};
ghost use Rattle.dex_laws.specs.Posted.{EachPosting};
ghost use Rattle.dex_types.specs.Totals.{total};

/// What a side locks after a posting, with what the posting's last event unlocks, is what it locked before with the
/// order's lock.
pub fn a_posting_locks_what_it_posts()
    ensures { (sizes : Lots) → EachPosting (λ side room order orders posting.
        locked side sizes posting.side + total (unlocked side) (last_events side sizes order posting.booted)
        ≡ locked side sizes orders + order_lock side sizes order) }
{}

/// For each slot of each trader, an order rests or one event frees the slot: whatever a meeting or a posting takes from
/// the book, it hands to the events, none twice and none never.
pub fn a_slot_is_freed_once()
    ensures meeting { (owner : Address) (slot : ℕ) → EachMeeting (λ side t w orders met.
        0 < t.sizes.coin → 0 < t.sizes.pc → All (λ (o : Order). 0 < price_of o.id) orders →
        rest_at owner slot orders ≡ rest_at owner slot met.left + freed_at owner slot met.events) }
    ensures posting { (owner : Address) (slot : ℕ) (sizes : Lots) → EachPosting (λ side room order orders posting.
        rest_at owner slot posting.side + freed_at owner slot (last_events side sizes order posting.booted)
        ≡ rest_at owner slot orders + rest_at owner slot (order ∷ [])) }
{}
