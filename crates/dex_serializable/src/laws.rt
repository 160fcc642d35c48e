//! The law of one order. A law is a function without a body, and its clause is the law.

ghost use Rattle.dex_script_types.specs.PlainScript.{PlainScript};
ghost use Rattle.dex_replay.specs.Runs.{IsOneOrder};
ghost use Rattle.dex_serializable.specs.Merged.{AreMerged, Histories, left};

/// What lanes leave side by side is what all items leave one after the other, in some order that keeps the order of
/// each lane.
pub fn what_lanes_leave_is_a_replay()
    ensures { (script : PlainScript) (all : Histories) → AreMerged script all
        → IsOneOrder script (left script all) }
{}
