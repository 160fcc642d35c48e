//! What a change of a side's account keeps.

ghost use Rattle.std.specs.Prelude.{ℕ, List};
ghost use Rattle.dex_types.specs.declared.terms.Side.{Side};
ghost use Rattle.dex_slab.specs.Changes.{KeepsFrame};
ghost use Rattle.dex_slab.specs.Slab.{IsSlab};
ghost use Rattle.dex_slab.specs.StandsFor.{IsSideAccount};

/// An account of a side in which only bytes of the slab's header and of the nodes change, and which is a slab again, is
/// an account of that side again. Every call of a side for writing changes no others, so whoever calls it, or a call
/// that is written for any side, keeps the accounts accepted.
pub fn what_keeps_its_frame_stays_an_account()
    ensures { (side : Side) (old new : List ℕ) → IsSideAccount side old → KeepsFrame old new → IsSlab new
        → IsSideAccount side new }
{}
