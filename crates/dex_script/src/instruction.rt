//! Instruction rows, after the rows before them.

ghost use Rattle.std.specs.Prelude.{◌≡◌, ◌<◌, ◌≤◌, ◌+◌, List, [], ◌∷◌, ◌++◌, true, OnOk, map, vec_capacity, vec_len};
ghost use Rattle.dex_types.specs.Accounts.{PlainAccounts};
ghost use Rattle.dex_types.specs.Rows.{PlainRow, row_of};
ghost use Rattle.dex_script_types.specs.Places.{AreBeside, ArePlaced};
ghost use Rattle.dex_script.specs.Names.{IsReading, StandAt};
ghost use Rattle.dex_script.specs.Rows as spec;
ghost use Rattle.dex_script.specs.Telling.{TellsAdded, draft_of, start_of};

use crate::draft::Draft;
use crate::names::Stand;
use crate::swap::is_bad_swap;
use dex_statement::{FaultKind, InstructionWords, RowError};
use dex_types::{NoMemory, Row};
use dex_world::RowPlaces;

impl Draft {
    /// Whether no instruction row of this number finds room.
    fn is_full(&self, number: u32) -> bool
        ensures { result ≡ spec.is_full (draft_of self.now) number }
    {
        self.limits.items <= self.items || number == u32::MAX
    }

    /// Adds an instruction row of this number, whose market and wallets stand at these places.
    #[tactic(auto, unfolding(crate::specs::Rows::with_known))]
    pub(crate) fn add_known(
        &mut self,
        places: &mut Vec<RowPlaces>,
        number: u32,
        words: &mut InstructionWords,
        at: Stand,
    ) -> Result<(), RowError>
        requires reading { IsReading (draft_of self.old) places.old.items }
        requires at { StandAt (start_of self.old.start) words.old.parties at }
        ensures row { TellsAdded result (draft_of self.old) (draft_of self.new)
            (spec.with_known (draft_of self.old) number words.old) }
        ensures reading { IsReading (draft_of self.new) places.new.items }
        ensures start { start_of self.new.start ≡ start_of self.old.start }
    {
        if self.is_full(number) || exceeds_row(words) {
            return Err(RowError::Fault(FaultKind::OverLimit));
        }
        make_room(&mut self.rows, places, 1)?;
        self.lanes = self.lanes.max(words.lane + 1);
        self.is_first = false;
        self.is_late = true;
        self.items += 1;
        self.push_row(places, number, words, at);
        Ok(())
    }

    /// Adds the two legs of a swap row of this number, whose markets and wallets stand at these places.
    #[tactic(auto, unfolding(crate::specs::Rows::with_legs))]
    pub(crate) fn add_legs(
        &mut self,
        places: &mut Vec<RowPlaces>,
        number: u32,
        first: &mut InstructionWords,
        second: &mut InstructionWords,
        first_at: Stand,
        second_at: Stand,
    ) -> Result<(), RowError>
        requires reading { IsReading (draft_of self.old) places.old.items }
        requires first { StandAt (start_of self.old.start) first.old.parties first_at }
        requires second { StandAt (start_of self.old.start) second.old.parties second_at }
        ensures row { TellsAdded result (draft_of self.old) (draft_of self.new)
            (spec.with_legs (draft_of self.old) number first.old second.old) }
        ensures reading { IsReading (draft_of self.new) places.new.items }
        ensures start { start_of self.new.start ≡ start_of self.old.start }
    {
        if self.is_full(number) || exceeds_row(first) || exceeds_row(second) {
            return Err(RowError::Fault(FaultKind::OverLimit));
        }
        if is_bad_swap(first, second) {
            return Err(RowError::Fault(FaultKind::BadSwap));
        }
        if self.batch {
            return Err(RowError::Fault(FaultKind::NoBatch));
        }
        make_room(&mut self.rows, places, 2)?;
        self.lanes = self.lanes.max(first.lane + 1);
        self.is_first = false;
        self.is_late = true;
        self.items += 1;
        self.push_row(places, number, first, first_at);
        self.push_row(places, number, second, second_at);
        Ok(())
    }

    /// One more row of this number, at these places, for which there is room.
    fn push_row(
        &mut self,
        places: &mut Vec<RowPlaces>,
        number: u32,
        words: &mut InstructionWords,
        at: Stand,
    )
        // There is room for one more row, whose places are known.
        requires reading { IsReading (draft_of self.old) places.old.items }
        requires late { self.old.is_late ≡ true }
        requires at { StandAt (start_of self.old.start) words.old.parties at }
        requires rows_room { vec_len self.old.rows < vec_capacity self.old.rows }
        requires places_room { vec_len places.old < vec_capacity places.old }

        // The row is the last of the draft, and its places stand beside it.
        ensures row { draft_of self.new
            ≡ spec.with_one (draft_of self.old) (spec.instruction_row number self.old.clock words.old) }
        ensures reading { IsReading (draft_of self.new) places.new.items }
        ensures start { start_of self.new.start ≡ start_of self.old.start }
        ensures rows_room { (vec_len self.new.rows ≡ vec_len self.old.rows + 1)
            × (vec_capacity self.new.rows ≡ vec_capacity self.old.rows) }
        ensures places_room { (vec_len places.new ≡ vec_len places.old + 1)
            × (vec_capacity places.new ≡ vec_capacity places.old) }
    {
        push_placed(&mut self.rows, places, number, self.clock, words, at);
    }
}

/// Makes room for this many rows more, with their places. Where memory is wanting both lists stay as well.
pub fn make_room(
    rows: &mut Vec<Row>,
    places: &mut Vec<RowPlaces>,
    count: usize,
) -> Result<(), NoMemory>
    ensures rows { rows.new.items ≡ rows.old.items }
    ensures places { places.new.items ≡ places.old.items }
    ensures rows_room { OnOk result (vec_len rows.new + count ≤ vec_capacity rows.new) }
    ensures places_room { OnOk result (vec_len places.new + count ≤ vec_capacity places.new) }
{
    rows.reserve(count)?;
    places.reserve(count)?;
    Ok(())
}

/// One more row of this number, at this time and at these places, for which there is room: what the words say, whose
/// buffers go into it.
pub fn push_placed(
    rows: &mut Vec<Row>,
    places: &mut Vec<RowPlaces>,
    number: u32,
    now: i64,
    words: &mut InstructionWords,
    at: Stand,
)
    requires rows { vec_len rows.old < vec_capacity rows.old }
    requires places { vec_len places.old < vec_capacity places.old }
    ensures row { map row_of rows.new.items
        ≡ map row_of rows.old.items ++ (spec.instruction_row number now words.old ∷ []) }
    ensures placed { (start : PlainAccounts) (front : List PlainRow)
        → StandAt start words.old.parties at
        → ArePlaced start (front ++ map row_of rows.old.items) places.old.items
        → ArePlaced start (front ++ map row_of rows.new.items) places.new.items }
    ensures beside { (start : PlainAccounts) (front : List PlainRow)
        → StandAt start words.old.parties at
        → AreBeside (front ++ map row_of rows.old.items) places.old.items
        → AreBeside (front ++ map row_of rows.new.items) places.new.items }
    ensures rows_room { (vec_len rows.new ≡ vec_len rows.old + 1) × (vec_capacity rows.new ≡ vec_capacity rows.old) }
    ensures places_room { (vec_len places.new ≡ vec_len places.old + 1)
        × (vec_capacity places.new ≡ vec_capacity places.old) }
{
    places.push_reserved(RowPlaces {
        number,
        lane: words.lane,
        market: at.market,
        wallets: at.wallets,
    });
    rows.push_reserved(take_row(number, now, words));
}

/// The row of this number, at this time: what the words say, whose buffers go into it. It is not inlined: a row is
/// large.
#[inline(never)]
pub fn take_row(number: u32, now: i64, words: &mut InstructionWords) -> Row
    ensures { row_of result ≡ spec.instruction_row number now words.old }
{
    Row {
        lane: words.lane,
        number,
        market: words.parties.market,
        signer: words.parties.signer,
        named: words.parties.take_named(),
        coin: words.parties.coin,
        pc: words.parties.pc,
        discount: words.parties.discount,
        referrer: words.parties.referrer,
        bytes: words.take_bytes(),
        now,
    }
}

/// Gives words without buffers those of a row that is over, if there is one. What the words say then does not matter.
pub(crate) fn refill(words: &mut InstructionWords, spare: &mut Vec<Row>) {
    if words.bytes.capacity() == 0 {
        if let Some(Row { named, bytes, .. }) = spare.pop() {
            words.parties.named = named;
            words.bytes = bytes;
        }
    }
}

/// Whether an instruction row passes a limit: 16 lanes, 16 named accounts, 256 bytes of data.
pub fn exceeds_row(words: &InstructionWords) -> bool
    ensures { result ≡ spec.exceeds_row words.now }
{
    16 <= words.lane || 16 < words.parties.named.len() || 256 < words.bytes.len()
}
