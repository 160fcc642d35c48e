//! Threads take turns at one list. Each test ends by itself, whatever the schedule.
ghost use Rattle.std.specs.Prelude.{◌≡◌, ◌++◌, ◌+◌, ◌<◌, IfSome, Some, replicate, ⊤};
ghost use Rattle.dex_gate.specs.PassView.{IsIdle};
ghost use Rattle.dex_gate.specs.declared.stage.Stage.TheVariants.{Idle};

use crate::turns::{Lanes, take_turn};
use dex_gate::{Gate, PASSES, Pass};
use dex_lanes::{Job, run_jobs};
use std::process::Abort;
use std::sync::Wait;
use std::test::Fail;
use std::thread;

// Takes so many turns, of which each adds the number of the pass.
fn take_turns<R: Wait + Abort>(
    rt: &R,
    gate: &Gate<Lanes>,
    mut pass: Pass<Lanes>,
    number: u32,
    turns: u32,
) -> Pass<Lanes>
    requires { IsIdle gate.now number pass }
    ensures pass { (result.gate ≡ pass.gate) × (result.number ≡ pass.number) × (result.stage ≡ Idle) }
    ensures room { (result.next ≡ pass.next) × (result.until ≡ pass.until) }
    ensures mine { result.mine ≡ pass.mine ++ replicate turns number }
{
    for _ in 0..turns {
        match take_turn(rt, gate, &mut pass, number) {
            Ok(()) => {}
            Err(turn) => {
                let _turn = &turn;
                panic!(rt; "memory");
            }
        }
    }
    pass
}

/// How many turns each of eight threads takes.
const MANY_TURNS: u32 = 1_000;

// A pass of this number takes many turns.
#[derive(Drop)]
struct Takes<'a, R> {
    rt: &'a R,
    gate: &'a Gate<Lanes>,
    pass: Option<Pass<Lanes>>,
    number: u32,
}

impl<'a, R: Wait + Abort> Job for Takes<'a, R> {
    ghost ready = { λ job. IfSome job.pass (IsIdle job.gate.now job.number) };

    ghost ran = { λ _ _. ⊤ };

    fn run(&mut self) {
        if let Some(pass) = self.pass.take() {
            let _pass = take_turns(self.rt, self.gate, pass, self.number, MANY_TURNS);
        }
    }
}

// A pass that is handed out next is to take many turns.
fn next_of<'a, R>(
    rt: &'a R,
    gate: &'a Gate<Lanes>,
    pass: &mut Pass<Lanes>,
    number: u32,
) -> Takes<'a, R>
    requires gate { pass.old.gate ≡ Some gate.now }
    requires idle { pass.old.stage ≡ Idle }
    requires number { pass.old.next ≡ number }
    requires room { number < pass.old.until }
    ensures job { IfSome result.pass (IsIdle result.gate.now result.number) }
    ensures rest { pass.new ≡ record pass.old { next = number + 1 } }
{
    Takes {
        rt,
        gate,
        pass: Some(gate.split(pass)),
        number,
    }
}

// How often the lane stands in the list.
fn count_of(lanes: &[u32], lane: u32) -> usize {
    lanes.iter().filter(|x| **x == lane).count()
}

#[test]
fn two_threads_take_three_turns_each(rt: HostRuntime) -> Result<(), Fail> {
    let alloc = rt.alloc();
    let mut passes = Vec::with_capacity(alloc, 2)?;
    let (gate, mut first) = Gate::open(
        alloc,
        Lanes {
            lanes: Vec::new(alloc),
        },
        2,
    )?;
    let second = gate.split(&mut first);
    let shared = &gate;
    let (first, second) = thread::join(
        &rt,
        || take_turns(&rt, shared, first, 0, 3),
        || take_turns(&rt, shared, second, 1, 3),
    );
    passes.push_reserved(first);
    passes.push_reserved(second);
    let all = gate.close(passes).lanes;
    assert!(rt; all.len() == 6);
    assert!(rt; count_of(&all, 0) == 3 && count_of(&all, 1) == 3);
    Ok(())
}

#[test]
fn one_pass_takes_three_turns(rt: HostRuntime) -> Result<(), Fail> {
    let alloc = rt.alloc();
    let lanes = Vec::new(alloc);
    let mut passes = Vec::with_capacity(alloc, 1)?;
    let (gate, pass) = Gate::open(alloc, Lanes { lanes }, 1)?;
    passes.push_reserved(take_turns(&rt, &gate, pass, 0, 3));
    let all = gate.close(passes).lanes;
    assert!(rt; all.as_slice() == [0, 0, 0].as_slice());
    Ok(())
}

// More threads than processors take many turns, and give way in each, so that those who wait are parked. Where the end
// of a turn wakes nobody, or another than who is next, or who waits does not park at all, this does not end in time.
#[test]
fn eight_threads_wait_parked(rt: HostRuntime) -> Result<(), Fail> {
    let alloc = rt.alloc();
    let lanes = Vec::new(alloc);
    let (gate, mut first) = Gate::open(alloc, Lanes { lanes }, PASSES as u32)?;
    let mut jobs = [
        next_of(&rt, &gate, &mut first, 1),
        next_of(&rt, &gate, &mut first, 2),
        next_of(&rt, &gate, &mut first, 3),
        next_of(&rt, &gate, &mut first, 4),
        next_of(&rt, &gate, &mut first, 5),
        next_of(&rt, &gate, &mut first, 6),
        next_of(&rt, &gate, &mut first, 7),
        next_of(&rt, &gate, &mut first, 8),
    ];
    run_jobs(&rt, &mut jobs);
    Ok(())
}
