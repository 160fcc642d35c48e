//! A script as far as it is read, one row after the other.

ghost use Rattle.std.specs.Prelude.{◌≡◌, ℕ, [], IfOk};
ghost use Rattle.dex_types.specs.Limits.{AreLimits};
ghost use Rattle.dex_script_types.specs.Facts.{IsScript};
ghost use Rattle.dex_script.specs.Drafts.{no_rows};
ghost use Rattle.dex_script.specs.Names.{FindsAmong, IsReading};
ghost use Rattle.dex_script.specs.Rows as spec;
ghost use Rattle.dex_script.specs.Rows.{IsSetup};
ghost use Rattle.dex_script.specs.Telling.{TellsAdded, draft_of};

use crate::draft::Draft;
use crate::instruction::make_room;
use crate::making::MakeMarkets;
use crate::names::{Names, Stand};
use dex_rows::records::Fields;
use dex_script_types::Script;
use dex_statement::{
    FaultKind, InstructionWords, Parties, RowError, Statement, SwapWords, read_instruction,
    statement_of,
};
use dex_types::{Limits, NoMemory, STANDARD};
use dex_world::RowPlaces;
use std::alloc::Global;
use std::marker::Model;

/// Most rows have more bytes than this.
const SHORT: usize = 40;

/// Room is taken for no more rows than this before they are read: a little more than the 128 KB from which on the C
/// library's lists are pages of their own.
const ROWS: usize = 512;

/// A script as far as its rows are read, the places of each row, and, from its first instruction row on, the names of
/// its markets and wallets. A contract sees it as what the rows say.
#[derive(Drop)]
pub struct Reader {
    pub(crate) draft: Draft,
    pub(crate) places: Vec<RowPlaces>,
    pub(crate) names: Option<Names>,
}

impl Model for Reader {
    ghost use Rattle.std.specs.Prelude.{IfSome};
    ghost use Rattle.dex_script.specs.Drafts.{PlainDraft};
    ghost use Rattle.dex_script.specs.Names.{AreNames, IsReading};
    ghost use Rattle.dex_script.specs.Telling.{draft_of, start_of};

    ghost Value = { PlainDraft };

    ghost view = { λ s. draft_of s.draft };

    ghost invariant = { λ s. IsReading (draft_of s.draft) s.places.items
        × IfSome s.names (λ names. AreNames names (start_of s.draft.start)) };
}

impl Reader {
    /// Before the first row of a script within these limits.
    pub fn new(alloc: Global, batch: bool, limits: &Limits) -> Reader
        requires { AreLimits limits.now }
        ensures { result ≡ no_rows limits.now batch }
    {
        Reader::of(alloc, Draft::new(alloc, batch, *limits))
    }

    /// What was read so far, of which nothing is an instruction row.
    pub(crate) fn of(alloc: Global, draft: Draft) -> Reader
        requires { IsReading (draft_of draft) [] }
        ensures { result ≡ draft_of draft }
    {
        Reader {
            draft,
            places: Vec::new(alloc),
            names: None,
        }
    }

    /// What was read, as a script.
    pub fn into_script(self, alloc: Global) -> Result<Script, NoMemory>
        requires { IsScript self.script }
        ensures { IfOk result (λ script. script ≡ self.script) }
    {
        self.draft.into_script(alloc, self.places)
    }

    /// This reader, with the accounts of its markets made as the last argument does.
    pub fn with_markets_by<H: MakeMarkets>(
        self,
        alloc: Global,
        how: &mut H,
    ) -> Result<Reader, NoMemory>
        requires { H.ready how.old }
        ensures made { IfOk result (λ made. made ≡ self) }
        ensures ran { H.ran how.old how.new }
    {
        let mut draft = self.draft;
        let markets = std::mem::replace(&mut draft.start.markets, Vec::new(alloc));
        draft.start.markets = how.make_markets(alloc, markets)?;
        Ok(Reader {
            draft,
            places: self.places,
            names: self.names,
        })
    }

    /// This reader, with room for some rows more where so many bytes are still to be read. Lists that are shorter than
    /// this are copied each time that they grow, and longer ones only get other pages.
    pub(crate) fn with_room(self, left: usize) -> Result<Reader, NoMemory>
        ensures { IfOk result (λ wide. wide ≡ self) }
    {
        let mut wide = self;
        let count = (left / SHORT).min(ROWS);
        make_room(&mut wide.draft.rows, &mut wide.places, count)?;
        Ok(wide)
    }

    /// Adds what the row of this number states. After a fault all is as it was; where memory is wanting, what is left
    /// does not matter. The words are a buffer for those of `do` rows.
    #[tactic(auto, unfolding(crate::specs::Rows::with_row))]
    pub fn add_row(
        &mut self,
        alloc: Global,
        number: u32,
        row: &Fields<'_>,
        words: &mut InstructionWords,
    ) -> Result<(), RowError>
        ensures added { TellsAdded result self.old self.new (spec.with_row self.old number row.now) }
    {
        if read_instruction(alloc, row, words)? {
            self.add_instruction(alloc, number, words)
        } else {
            self.add_stated(alloc, number, row)
        }
    }

    /// Adds what a row of any kind states. It is not inlined: a script is nearly all `do` rows.
    #[inline(never)]
    #[tactic(auto, unfolding(crate::specs::Rows::with_row))]
    fn add_stated(&mut self, alloc: Global, number: u32, row: &Fields<'_>) -> Result<(), RowError>
        ensures { TellsAdded result self.old self.new (spec.with_row self.old number row.now) }
    {
        match statement_of(alloc, row)? {
            Statement::Instruction(mut words) => self.add_instruction(alloc, number, &mut words),
            Statement::Swap(words) => self.add_swap(alloc, number, words),
            Statement::Clock(now) => {
                self.set_clock(now);
                Ok(())
            }
            setup => self.add_setup(alloc, setup),
        }
    }

    /// Adds what a setup row states, or one that chooses the program. Names are made again after it.
    fn add_setup(&mut self, alloc: Global, statement: Statement) -> Result<(), RowError>
        requires { IsSetup statement }
        ensures { (number : ℕ) → TellsAdded result self.old self.new (spec.with_statement self.old number statement) }
    {
        let before = std::mem::replace(self, Reader::new(alloc, false, &STANDARD));
        let mut draft = before.draft;
        match draft.add_setup(alloc, statement) {
            Ok(()) => {
                *self = Reader {
                    draft,
                    places: before.places,
                    names: None,
                };
                Ok(())
            }
            Err(RowError::Fault(kind)) => {
                *self = Reader {
                    draft,
                    places: before.places,
                    names: before.names,
                };
                Err(RowError::Fault(kind))
            }
            Err(RowError::NoMemory) => Err(RowError::NoMemory),
        }
    }

    /// Adds an instruction row of this number.
    #[tactic(auto, unfolding(crate::specs::Rows::with_instruction))]
    fn add_instruction(
        &mut self,
        alloc: Global,
        number: u32,
        words: &mut InstructionWords,
    ) -> Result<(), RowError>
        ensures { TellsAdded result self.old self.new (spec.with_instruction self.old number words.old) }
    {
        match self.places_of(alloc, &words.parties)? {
            Some(at) => self.draft.add_known(&mut self.places, number, words, at),
            None => Err(RowError::Fault(FaultKind::UnknownLabel)),
        }
    }

    /// Adds a swap row of this number.
    fn add_swap(&mut self, alloc: Global, number: u32, words: SwapWords) -> Result<(), RowError>
        ensures { TellsAdded result self.old self.new (spec.with_swap self.old number words) }
    {
        let mut first = words
            .first
            .into_instruction(alloc, words.lane, words.signer);
        let mut second = words
            .second
            .into_instruction(alloc, words.lane, words.signer);
        self.add_two(alloc, number, &mut first, &mut second)
    }

    /// Adds the legs of a swap row of this number.
    #[tactic(auto, unfolding(crate::specs::Rows::with_two))]
    fn add_two(
        &mut self,
        alloc: Global,
        number: u32,
        first: &mut InstructionWords,
        second: &mut InstructionWords,
    ) -> Result<(), RowError>
        ensures { TellsAdded result self.old self.new (spec.with_two self.old number first.old second.old) }
    {
        let Some(first_at) = self.places_of(alloc, &first.parties)? else {
            return Err(RowError::Fault(FaultKind::UnknownLabel));
        };
        let Some(second_at) = self.places_of(alloc, &second.parties)? else {
            return Err(RowError::Fault(FaultKind::UnknownLabel));
        };
        self.draft.add_legs(&mut self.places, number, first, second, first_at, second_at)
    }

    /// Where the market and the wallets that an instruction row names stand, if all are declared. Makes the names where
    /// they are not there yet.
    fn places_of(&mut self, alloc: Global, parties: &Parties) -> Result<Option<Stand>, NoMemory>
        ensures places { IfOk result (FindsAmong self.old.script.start parties.now) }
        ensures same { self.new ≡ self.old }
    {
        match &self.names {
            Some(names) => Ok(names.places_of(parties)),
            None => self.first_places_of(alloc, parties),
        }
    }

    /// Like `places_of`, where the names are not there yet. It is not inlined: it has room for them.
    #[inline(never)]
    fn first_places_of(
        &mut self,
        alloc: Global,
        parties: &Parties,
    ) -> Result<Option<Stand>, NoMemory>
        ensures places { IfOk result (FindsAmong self.old.script.start parties.now) }
        ensures same { self.new ≡ self.old }
    {
        let names = Names::of_start(alloc, &self.draft.start)?;
        let found = names.places_of(parties);
        self.names = Some(names);
        Ok(found)
    }

    /// After a `clock` row. The names stay.
    fn set_clock(&mut self, now: i64)
        ensures { self.new ≡ spec.with_clock self.old now }
    {
        self.draft.clock = now;
        self.draft.is_first = false;
    }
}
