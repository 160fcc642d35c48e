//! Rows that were accepted and have not acted yet, with the accounts on which they are to act.

ghost use Rattle.std.specs.Prelude.{◌≡◌, ◌==◌, ◌||◌, ◌^◌, ◌-◌, nat_le, IfOk, IfSome, Ok, length};
ghost use Rattle.std.specs.Prelude.{option_copied, option_map};
ghost use Rattle.std.specs.List.{position};
ghost use Rattle.dex_types.specs.declared.account_bytes.MarketAccounts.{MarketAccounts as AccountsOf};
ghost use Rattle.dex_types.specs.Accounts.{accounts_of, market_accounts_of};
ghost use Rattle.dex_types.specs.Addresses.{is_same};
ghost use Rattle.dex_statement.specs.declared.statement.Statement.TheVariants as statement;
ghost use Rattle.dex_statement.specs.Statements.{statement_of};
ghost use Rattle.dex_statement.specs.Words.{Fields as FieldsOf};
ghost use Rattle.dex_types.specs.declared.limits.TheConstants.{WIDE as wide};
ghost use Rattle.dex_script_types.specs.Facts.{IsScript, IsStart};
ghost use Rattle.dex_desk.specs.Blocks as spec;
ghost use Rattle.dex_accounts.specs.Accepted.{IsAccepted};
ghost use Rattle.dex_desk.specs.Books.{found_market};
ghost use Rattle.dex_desk.specs.Blocks.{TellsRow};
ghost use Rattle.dex_script.specs.Names.{AreNames};
ghost use Rattle.dex_script.specs.Rows as rules;

use dex_script::{Names, exceeds_row, is_bad_swap, make_room, push_placed};
use dex_script_types::{RowList, Script};
use dex_statement::{FaultKind, InstructionWords, RowError, SwapWords};
use dex_types::{Accounts, Address, MarketAccounts, NoMemory, Program, Row, WIDE, is_same};
use dex_world::RowPlaces;
use std::alloc::Global;
use std::marker::Model;

/// Rows that were accepted and have not acted yet: a script so far, which starts with the accounts that the rows before
/// left. A contract sees it as that, and the number of the next row.
#[derive(Drop)]
pub struct Block {
    pub(crate) start: Accounts,
    pub(crate) names: Names,
    pub(crate) program: Program,
    /// The clock of the next row.
    pub(crate) clock: i64,
    /// The number of the next row.
    pub(crate) number: u32,
    pub(crate) lanes: u32,
    /// How many rows there are, where a swap is one.
    pub(crate) items: u32,
    pub(crate) rows: Vec<Row>,
    pub(crate) places: Vec<RowPlaces>,
}

impl Model for Block {
    ghost use Rattle.dex_desk.specs.Blocks.{PlainBlock};
    ghost use Rattle.dex_desk.specs.BlockInside.{IsKept, block_inside};

    ghost Value = { PlainBlock };

    ghost view = { block_inside };

    ghost invariant = { IsKept };
}

impl Block {
    /// No row of these accounts yet.
    pub fn of(
        alloc: Global,
        start: Accounts,
        names: Names,
        program: Program,
        clock: i64,
        number: u32,
    ) -> Block
        requires start { IsStart wide (accounts_of start) }
        requires names { AreNames names (accounts_of start) }
        ensures { result ≡ record { draft = spec.no_rows_of (accounts_of start) program clock; number = number } }
    {
        Block {
            start,
            names,
            program,
            clock,
            number,
            lanes: 1,
            items: 0,
            rows: Vec::new(alloc),
            places: Vec::new(alloc),
        }
    }

    /// The number of the next row.
    pub fn number(&self) -> u32
        ensures { result ≡ self.now.number }
    {
        self.number
    }

    /// How many rows there are; of a swap each leg counts.
    pub fn len(&self) -> usize
        ensures { result ≡ length self.now.draft.script.rows }
    {
        self.rows.len()
    }

    /// The accounts as they are before these rows.
    pub fn start(&self) -> &Accounts
        ensures accounts { accounts_of result.now ≡ self.now.draft.script.start }
        ensures start { IsStart wide self.now.draft.script.start }
    {
        &self.start
    }

    /// A market's accounts as they are before these rows, if there is such a market.
    pub fn market(&self, address: Address) -> Option<&MarketAccounts>
        ensures found { option_map market_accounts_of (option_copied result)
            ≡ found_market address self.now.draft.script.start.markets }
        ensures accepted { IfSome result (λ accounts. IsAccepted (market_accounts_of accounts.now)) }
    {
        match place_of_market(&self.start.markets, address) {
            Some(place) => Some(&self.start.markets[place]),
            None => None,
        }
    }

    /// Behind a `clock` row.
    pub fn set_clock(&mut self, now: i64)
        requires { (row : FieldsOf) × (statement_of row ≡ Ok (statement.Clock now)) }
        ensures { self.new ≡ spec.with_time self.old now }
    {
        self.clock = now;
        self.number = self.number.saturating_add(1);
    }

    /// Adds an instruction row, or says what is wrong with it behind the rows before.
    pub fn add_instruction(&mut self, words: &mut InstructionWords) -> Result<(), RowError>
        requires { (row : FieldsOf) × (statement_of row ≡ Ok (statement.Instruction words.old)) }
        ensures { TellsRow result self.old self.new (spec.with_words self.old words.old) }
    {
        let Some(at) = self.names.places_of(&words.parties) else {
            return Err(RowError::Fault(FaultKind::UnknownLabel));
        };
        if is_full(self.items, self.number) || exceeds_row(words) {
            return Err(RowError::Fault(FaultKind::OverLimit));
        }
        let lane = words.lane;
        make_room(&mut self.rows, &mut self.places, 1)?;
        push_placed(
            &mut self.rows,
            &mut self.places,
            self.number,
            self.clock,
            words,
            at,
        );
        self.lanes = self.lanes.max(lane + 1);
        self.items += 1;
        self.number += 1;
        Ok(())
    }

    /// Adds the two legs of a swap row, or says what is wrong with it behind the rows before.
    pub fn add_swap(&mut self, alloc: Global, words: SwapWords) -> Result<(), RowError>
        requires { (row : FieldsOf) × (statement_of row ≡ Ok (statement.Swap words)) }
        ensures { TellsRow result self.old self.new (spec.with_both self.old words) }
    {
        let lane = words.lane;
        let signer = words.signer;
        let mut first = words.first.into_instruction(alloc, lane, signer);
        let mut second = words.second.into_instruction(alloc, lane, signer);
        let Some(first_at) = self.names.places_of(&first.parties) else {
            return Err(RowError::Fault(FaultKind::UnknownLabel));
        };
        let Some(second_at) = self.names.places_of(&second.parties) else {
            return Err(RowError::Fault(FaultKind::UnknownLabel));
        };
        if exceeds_swap(self.items, self.number, &first, &second) {
            return Err(RowError::Fault(FaultKind::OverLimit));
        }
        if is_bad_swap(&first, &second) {
            return Err(RowError::Fault(FaultKind::BadSwap));
        }
        make_room(&mut self.rows, &mut self.places, 2)?;
        push_placed(
            &mut self.rows,
            &mut self.places,
            self.number,
            self.clock,
            &mut first,
            first_at,
        );
        push_placed(
            &mut self.rows,
            &mut self.places,
            self.number,
            self.clock,
            &mut second,
            second_at,
        );
        self.lanes = self.lanes.max(lane + 1);
        self.items += 1;
        self.number += 1;
        Ok(())
    }

    /// The rows, as a script; and what is needed to go on behind it.
    pub fn into_script(self, alloc: Global) -> Result<(Script, Behind), NoMemory>
        ensures script { IfOk result (λ made. made.0 ≡ self.draft.script) }
        ensures is { IsScript self.draft.script }
        ensures names { IfOk result (λ made. AreNames made.1.names self.draft.script.start) }
        ensures program { IfOk result (λ made. made.1.program ≡ self.draft.script.program) }
        ensures clock { IfOk result (λ made. made.1.clock ≡ self.draft.clock) }
        ensures number { IfOk result (λ made. made.1.number ≡ self.number) }
    {
        let Block {
            start,
            names,
            program,
            clock,
            number,
            lanes,
            items: _,
            rows,
            places,
        } = self;
        let mut list = RowList::new(alloc);
        list.push_piece(rows)?;
        let script = Script {
            start,
            rows: list,
            places,
            lanes,
            program,
            limits: WIDE,
        };
        let behind = Behind {
            names,
            program,
            clock,
            number,
        };
        Ok((script, behind))
    }
}

/// What stands behind the rows of a block.
#[derive(Drop)]
pub struct Behind {
    pub names: Names,
    pub program: Program,
    pub clock: i64,
    pub number: u32,
}

/// Where the market of an address stands, if it is here.
fn place_of_market(markets: &[MarketAccounts], address: Address) -> Option<usize>
    ensures { result ≡ position (λ (accounts : AccountsOf). is_same address accounts.address) markets.now }
{
    markets
        .iter()
        .position(|accounts| is_same(address, accounts.address))
}

/// Whether no row of this number finds room behind so many items.
fn is_full(items: u32, number: u32) -> bool
    ensures { result ≡ (nat_le wide.items items || (number == 2 ^ 32 - 1)) }
{
    WIDE.items <= items || number == u32::MAX
}

/// Whether no swap of this number finds room behind so many items, or one of its legs passes a limit.
fn exceeds_swap(
    items: u32,
    number: u32,
    first: &InstructionWords,
    second: &InstructionWords,
) -> bool
    ensures { result ≡ (nat_le wide.items items || (number == 2 ^ 32 - 1)
        || rules.exceeds_row first.now || rules.exceeds_row second.now) }
{
    is_full(items, number) || exceeds_row(first) || exceeds_row(second)
}
