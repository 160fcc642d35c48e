//! The gate.
ghost use Rattle.std.specs.Prelude.{◌≡◌, ◌+◌, ◌<◌, ◌≤◌, ◌++◌, map, All, IfOk, MatchResult, vec_len};
ghost use Rattle.dex_gate.specs.declared.TheConstants.{PASSES};
ghost use Rattle.dex_gate.specs.declared.stage.Stage.TheVariants.{Idle, Waiting, Out};
ghost use Rattle.dex_gate.specs.History.{added, Extends, of_lane, AddsOne};
ghost use Rattle.dex_gate.specs.PassView.{first_pass, next_pass, AreAll};

use crate::bells::Bells;
use crate::board::{Board, BoardSeat, DRAWN, Opened};
use crate::journaled::Journaled;
use crate::pass::Pass;
use crate::plays::{Draw, HandOut, TakeIn};
use crate::steps::{comes, look, pass_on, take_out};
use crate::turn::Turn;
use atomic_table::Table;
use dex_types::NoMemory;
use std::alloc::Global;
use std::marker::Model;
use std::snapshot::Snapshot;
use std::sync::Wait;

/// One value that threads share. Each has it to itself for a turn, and each turn adds one entry to its history.
pub struct Gate<V: Journaled> {
    pub(crate) table: Board<V>,
    pub(crate) bells: Bells,
}

impl<V: Journaled> Model for Gate<V> {
    ghost use Rattle.dex_gate.specs.GateView.{GateView};

    ghost Value = { GateView V.Entry V.Origin };

    ghost use Rattle.std.specs.Prelude.{◌<◌};
    ghost use Rattle.dex_gate.specs.Seats.{IsBoard};

    ghost view = { λ g. record {
      table = g.table.shared.table_id;
      passes = g.table.shared.key.passes;
      origin = V.origin g.table.shared.key.value.value;
      opening = V.entries g.table.shared.key.value.value;
    } };

    ghost invariant = { λ g. IsBoard g.table.shared.table_id × (0 < g.table.shared.key.passes) };
}

impl<V: Journaled + Drop> Drop for Gate<V> {
    fn drop(self) {
        let Self {
            table: _table,
            bells: _bells,
        } = self;
    }
}

impl<V: Journaled> Gate<V> {
    ghost use Rattle.dex_gate.specs.Seats.{shown_card};

    /// Opens a gate over a value. There may be as many passes as stated, of which this gives the first one, of number
    /// 0. On refusal the value is dropped.
    pub fn open(alloc: Global, value: V, passes: u32) -> Result<(Gate<V>, Pass<V>), NoMemory>
    where
        V: Drop,
        requires { (1 ≤ passes) × (passes ≤ PASSES) }
        ensures gate { IfOk result (λ r. (r.0.passes ≡ passes) × (r.0.origin ≡ V.origin value)
            × (r.0.opening ≡ V.entries value)) }
        ensures pass { IfOk result (λ r. r.1 ≡ first_pass r.0) }
    {
        let opened = Opened {
            value: Snapshot::of(&value),
            passes,
        };
        let count = value.count();
        let mut slots = Vec::with_capacity(alloc, 1)?;
        slots.push(Some(value))?;
        let Ok((table, seat)) = Table::new(alloc, &[count, count], slots, &opened) else {
            return Err(NoMemory);
        };
        let gate = Gate {
            table,
            bells: Bells::new(),
        };
        let pass = Pass { seat, ticket: 0 };
        Ok((gate, pass))
    }

    /// Hands out the next number: a new pass, which has seen what this one has.
    pub fn split(&self, pass: &mut Pass<V>) -> Pass<V>
        requires gate { pass.old.gate ≡ Some self.now }
        requires number { pass.old.next < pass.old.until }
        ensures kept { pass.new ≡ record pass.old { next = pass.old.next + 1 } }
        ensures given { result ≡ next_pass pass.old }
    {
        Pass {
            seat: self.table.shared.split_seat::<HandOut>(&mut pass.seat),
            ticket: 0,
        }
    }

    /// Draws a ticket.
    pub fn draw(&self, pass: &mut Pass<V>)
        requires gate { pass.old.gate ≡ Some self.now }
        requires idle { pass.old.stage ≡ Idle }
        ensures { pass.new ≡ record pass.old { stage = Waiting } }
    {
        pass.ticket = self
            .table
            .shared
            .fetch_add::<Draw>(&mut pass.seat, DRAWN, 1);
    }

    /// Waits until the turn of the pass's ticket has come, and gives the value.
    pub fn wait_turn<R: Wait>(&self, rt: &R, pass: &mut Pass<V>) -> Turn<V>
        requires gate { pass.old.gate ≡ Some self.now }
        requires waiting { pass.old.stage ≡ Waiting }
        ensures pass { pass.new ≡ record pass.old { stage = Out (V.entries result.value) } }
        ensures turn { (result.gate ≡ Some self.now) × (result.number ≡ pass.old.number)
            × (result.start ≡ V.entries result.value) }
        ensures origin { V.origin result.value ≡ self.now.origin }
        ensures begins { Extends self.now.opening (V.entries result.value) }
        ensures seen { Extends pass.old.seen (V.entries result.value) }
        ensures mine { of_lane V.lane pass.old.number (added self.now.opening (V.entries result.value))
            ≡ pass.old.mine }
    {
        for _ in rt.forever() {
            if !comes(&self.table.shared, pass.ticket) {
                self.bells.set(pass.ticket);
            }
            match self.try_turn(pass) {
                Ok(turn) => return turn,
                Err(_) => self.bells.sleep(rt, pass.ticket),
            }
        }
        // The loop has no end.
        unreachable!()
    }

    // The turn, if it has come, and else the ticket whose turn it is.
    fn try_turn(&self, pass: &mut Pass<V>) -> Result<Turn<V>, u64>
        requires gate { pass.old.gate ≡ Some self.now }
        requires waiting { pass.old.stage ≡ Waiting }
        ensures pass { MatchResult result (λ t. pass.new ≡ record pass.old { stage = Out (V.entries t.value) })
            (λ _. pass.new ≡ pass.old) }
        ensures turn { IfOk result (λ t. (t.gate ≡ Some self.now) × (t.number ≡ pass.old.number)
            × (t.start ≡ V.entries t.value)) }
        ensures origin { IfOk result (λ t. V.origin t.value ≡ self.now.origin) }
        ensures begins { IfOk result (λ t. Extends self.now.opening (V.entries t.value)) }
        ensures seen { IfOk result (λ t. Extends pass.old.seen (V.entries t.value)) }
        ensures mine { IfOk result (λ t. of_lane V.lane pass.old.number (added self.now.opening (V.entries t.value))
            ≡ pass.old.mine) }
    {
        let ticket = pass.ticket;
        let value = look(&self.table.shared, &mut pass.seat, ticket)?;
        Ok(Turn {
            start: Snapshot::of(&value),
            value,
            pass: Snapshot::of(pass),
        })
    }

    /// Gives the value back, with exactly one entry more, and passes the turn on.
    pub fn leave(&self, pass: &mut Pass<V>, turn: Turn<V>)
        requires gate { pass.old.gate ≡ Some self.now }
        requires turn { (turn.gate ≡ Some self.now) × (turn.number ≡ pass.old.number)
            × (pass.old.stage ≡ Out turn.start) }
        requires origin { V.origin turn.value ≡ self.now.origin }
        requires entry { AddsOne V.lane pass.old.number turn.start (V.entries turn.value) }
        ensures pass { pass.new ≡ record pass.old {
          seen = V.entries turn.value;
          mine = pass.old.mine ++ added turn.start (V.entries turn.value);
          stage = Idle;
        } }
        ensures seen { Extends pass.old.seen (V.entries turn.value) }
    {
        let Turn {
            value,
            start: _start,
            pass: _pass,
        } = turn;
        let next = pass_on(&self.table.shared, &mut pass.seat, value);
        self.bells.ring(next);
    }

    /// Takes all passes back, and gives the value.
    pub fn close(self, passes: Vec<Pass<V>>) -> V
        requires gate { All (λ p. p.gate ≡ Some self) passes.items }
        requires idle { All (λ p. p.stage ≡ Idle) passes.items }
        requires numbers { AreAll self.passes passes.items }
        ensures origin { V.origin result ≡ self.origin }
        ensures begins { Extends self.opening (V.entries result) }
        ensures lanes { All (λ e. V.lane e < self.passes) (added self.opening (V.entries result)) }
        ensures seen { All (λ p. Extends p.seen (V.entries result)) passes.items }
        ensures mine { All (λ p. of_lane V.lane p.number (added self.opening (V.entries result)) ≡ p.mine)
            passes.items }
    {
        let seat = self.gather(passes);
        let Self { table, bells: _ } = self;
        take_out(table, seat)
    }

    // One seat with the cards of all passes.
    fn gather(&self, mut passes: Vec<Pass<V>>) -> BoardSeat<V>
        requires gate { All (λ p. p.gate ≡ Some self.now) passes.items }
        requires idle { All (λ p. p.stage ≡ Idle) passes.items }
        requires some { 0 < vec_len passes }
        ensures table { result.table_id ≡ self.now.table }
        ensures view { (result.me.0.cards ≡ map (shown_card self.now) passes.items) × (result.me.0.stage ≡ Idle) }
    {
        // By the condition there is one pass at least.
        let Some(last) = passes.pop() else {
            unreachable!()
        };
        let mut seat = last.into_seat();
        while let Some(pass) = passes.pop() {
            self.table
                .shared
                .join_seat::<TakeIn>(&mut seat, pass.into_seat());
        }
        seat
    }
}
