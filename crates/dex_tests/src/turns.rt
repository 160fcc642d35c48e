//! The smallest value that a gate can have: a list of lanes, and a whole turn that adds to it.
ghost use Rattle.std.specs.Prelude.{◌≡◌, [], ◌∷◌, ◌++◌, IfErr, OnOk};
ghost use Rattle.dex_gate.specs.declared.stage.Stage.TheVariants.{Idle, Out};
ghost use Rattle.dex_gate.specs.History.{Extends};

use dex_gate::{Gate, Journaled, Pass, Turn};
use std::sync::Wait;
use std::thread;

/// A list of lanes. Each entry is its own lane.
#[derive(Drop)]
pub(crate) struct Lanes {
    pub lanes: Vec<u32>,
}

impl Journaled for Lanes {
    type Entry = u32;

    type Origin = ();

    ghost entries = { λ v. v.lanes.items };

    ghost lane = { λ e. e };

    ghost origin = { λ _. tt };

    fn count(&self) -> u64 {
        self.lanes.len() as u64
    }
}

/// Draws a ticket, waits for its turn, yields in it, adds the pass's number and leaves. Where memory runs out, the turn
/// comes back with nothing added, and is still out.
pub(crate) fn take_turn<R: Wait>(
    rt: &R,
    gate: &Gate<Lanes>,
    pass: &mut Pass<Lanes>,
    number: u32,
) -> Result<(), Turn<Lanes>>
    requires gate { pass.old.gate ≡ Some gate.now }
    requires number { pass.old.number ≡ number }
    requires idle { pass.old.stage ≡ Idle }
    ensures ok { OnOk result (pass.new ≡ record pass.old {
      seen = pass.new.seen;
      mine = pass.old.mine ++ number ∷ [];
    }) }
    ensures seen { OnOk result (Extends pass.old.seen pass.new.seen) }
    ensures err { IfErr result (λ turn. (pass.new ≡ record pass.old { stage = Out turn.start })
        × (turn.value.lanes.items ≡ turn.start)) }
    ensures turn { IfErr result (λ turn. (turn.gate ≡ pass.old.gate) × (turn.number ≡ number)) }
{
    gate.draw(pass);
    let mut turn = gate.wait_turn(rt, pass);
    thread::yield_now();
    if turn.value().lanes.push(number).is_err() {
        return Err(turn);
    }
    gate.leave(pass, turn);
    Ok(())
}
