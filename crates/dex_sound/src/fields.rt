//! In a sound market no amount passes its field, each event can be paid, and what is paid out is there.

ghost use Rattle.std.specs.Prelude.{ℕ, drop};
ghost use Rattle.std.specs.List.{All};
ghost use Rattle.dex_types.specs.declared.rows.Seen.{Seen};
ghost use Rattle.dex_types.specs.Market.{Market};
ghost use Rattle.dex_types.specs.Payment.{after_crank};
ghost use Rattle.dex_types.specs.Requests.{Request, HasPrice};
ghost use Rattle.dex_types.specs.Soundness.{IsSound};
ghost use Rattle.dex_types.specs.Steps.{step};
ghost use Rattle.dex_sound.specs.Fields.{FieldsFit, CanBePaid, CanPayOut};

/// In a sound market these native amounts are below 2^64: both vaults, the fees, the referrer rebates, and of each
/// account its free amounts, which are part of their totals, its totals and its referrer part. So it is after every
/// step.
pub fn every_amount_fits_its_field()
    ensures now { (m : Market) → IsSound m → FieldsFit m }
    ensures after { (request : Request) (seen : Seen) (m : Market) → IsSound m → HasPrice request.instruction
        → FieldsFit (step request seen m).market }
{}

/// In a sound market each pending event can be paid, at once and also after those before it: its owner's account is
/// open and holds its order, what it takes off a total is in that, and what it adds to a free amount, to a total or to
/// the referrer part leaves that below 2^64.
pub fn every_pending_event_can_be_paid()
    ensures now { (m : Market) → IsSound m → All (CanBePaid m) m.events }
    ensures later { (m : Market) (count : ℕ) → IsSound m
        → All (CanBePaid (after_crank count m)) (drop count m.events) }
{}

/// In a sound market what can be paid out is there: an account's free funds and its referrer part are in the vaults,
/// that part is in the referrer rebates, and the market's fees are in the quote vault.
pub fn what_is_paid_out_is_there()
    ensures { (m : Market) → IsSound m → CanPayOut m }
{}
