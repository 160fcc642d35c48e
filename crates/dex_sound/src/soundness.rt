//! Every step keeps a market sound.

ghost use Rattle.std.specs.Prelude.{◌≡◌, None};
ghost use Rattle.dex_types.specs.declared.addresses.Address.{Address};
ghost use Rattle.dex_types.specs.declared.rows.Seen.{Seen};
ghost use Rattle.dex_types.specs.Cancel.{CancelBy, cancelled};
ghost use Rattle.dex_types.specs.Market.{Market};
ghost use Rattle.dex_types.specs.Requests.{Request, HasPrice};
ghost use Rattle.dex_types.specs.Solvency.{IsSolvent, IsBounded};
ghost use Rattle.dex_types.specs.Soundness.{IsSound};
ghost use Rattle.dex_types.specs.Steps.{step};
ghost use Rattle.dex_types.specs.Why.{why_cancelled};
ghost use Rattle.dex_sound.specs.Cancels.{AreOwnResting};

/// Every step leaves a sound market sound, whatever the row asks and sees, where an order or a take states a price of
/// at least 1. Instruction data that states none does not decode.
pub fn every_step_keeps_a_market_sound()
    ensures { (request : Request) (seen : Seen) (m : Market) → IsSound m → HasPrice request.instruction
        → IsSound (step request seen m).market }
{}

/// In a sound market each vault holds what is free, locked, owed and earned, and with what pending fills are still to
/// take off totals it is below 2^64.
pub fn a_sound_market_is_solvent_and_bounded()
    ensures solvent { (m : Market) → IsSound m → IsSolvent m }
    ensures bounded { (m : Market) → IsSound m → IsBounded m }
{}

/// What a cancel that is not refused takes from a sound market rests there, is the named account's, and is taken once.
pub fn a_cancel_takes_own_resting_orders()
    ensures { (by : CancelBy) (owner : Address) (m : Market) → IsSound m → why_cancelled by owner m ≡ None →
        AreOwnResting owner m (cancelled by owner m.bids m.asks) }
{}
