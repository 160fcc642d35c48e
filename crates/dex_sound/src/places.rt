//! Soundness of slots by place.

ghost use Rattle.std.specs.Prelude.{◌↔◌};
ghost use Rattle.dex_types.specs.Market.{Market};
ghost use Rattle.dex_types.specs.Soundness.{SlotsAgree, IsSound};
ghost use Rattle.dex_sound.specs.Places.{PlacesAgree, IsSoundByPlace};

/// Counting orders and final outs by id and side, or by the slots that hold them, is one thing.
pub fn slots_agree_by_place()
    ensures { (m : Market) → SlotsAgree m ↔ PlacesAgree m }
{}

/// So a market is sound exactly where it is sound with its slots counted by place.
pub fn soundness_agrees_by_place()
    ensures { (m : Market) → IsSound m ↔ IsSoundByPlace m }
{}
