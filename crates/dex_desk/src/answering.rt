//! What rows are answered.

ghost use Rattle.std.specs.Prelude.{◌≡◌, ◌∷◌, ◌++◌, [], Err, IfOk, Ok, OnOk};
ghost use Rattle.dex_rows.specs.Records.{rows_of};
ghost use Rattle.dex_statement.specs.Words.{Fields as FieldsOf};
ghost use Rattle.dex_desk.specs.Asking.PlainAsked.{Instructs, Sets, Swaps};
ghost use Rattle.dex_desk.specs.Asking.{asked_of};
ghost use Rattle.dex_desk.specs.Replies.{ActedIn};
ghost use Rattle.dex_desk.specs.Steps.{SaidIn, SaysDump, Went, clock_line, fault_line, shown};
ghost use Rattle.dex_desk.specs.Talks.{WentOn, talk};
ghost use Rattle.dex_desk.specs.Talks.Session.{Serves};

use crate::acting::act;
use crate::block::Block;
use crate::book::write_book;
use crate::inbox::Inbox;
use crate::rows::{Asked, read_row};
use dex_dump::append_dump;
use dex_refusal_lines::{ScriptRefused, script_refused_text};
use dex_report::{LINE, write_head};
use dex_rows::records::{Fields, Rows};
use dex_statement::{FaultKind, InstructionWords, RowError, SwapWords};
use dex_types::{Address, NoMemory};
use std::alloc::Global;

/// How many rows act together at most.
const MOST: usize = 256;

/// How many bytes of answers are kept before they are said, where more rows are there.
const FULL: usize = 65_536;

/// Buffers that serve for all rows.
#[derive(Drop)]
pub struct Buffers {
    pub words: InstructionWords,
    pub line: [u8; LINE],
    pub text: Vec<u8>,
}

/// Takes lines that were heard, until the answers fill a write. Where no whole line is left, all rows have acted.
pub fn take_lines(
    alloc: Global,
    block: Block,
    inbox: &mut Inbox,
    buffers: &mut Buffers,
) -> Result<Block, NoMemory>
    ensures { IfOk result (λ after. WentOn (talk (Serves block inbox.old) buffers.old.text.items)
        (talk (Serves after inbox.new) buffers.new.text.items)) }
{
    let mut block = block;
    'lines: while let Some(size) = inbox.line_end() {
        if FULL <= buffers.text.len() {
            return Ok(block);
        }
        block = take_line(alloc, block, &inbox.bytes()[..size], buffers)?;
        inbox.pass(size + 1);
    }
    answer_all(alloc, block, buffers)
}

/// Takes each row of a line. Rows that were accepted may be still to act.
pub fn take_line(
    alloc: Global,
    block: Block,
    line: &[u8],
    buffers: &mut Buffers,
) -> Result<Block, NoMemory>
    ensures { IfOk result (λ after. Went (rows_of line.now) block after buffers.old.text.items buffers.new.text.items) }
{
    let mut rows = Rows::new(alloc, line);
    let mut row = Fields::new();
    let mut block = block;
    'rows: while rows.next_row(&mut row)? {
        block = take_row(alloc, block, &row, buffers)?;
    }
    Ok(block)
}

/// Lets the rows act that are still to act, and answers them.
pub fn answer_all(alloc: Global, block: Block, buffers: &mut Buffers) -> Result<Block, NoMemory>
    ensures acted { IfOk result (λ left. ActedIn block left buffers.old.text.items buffers.new.text.items) }
    ensures quiet { IfOk result (λ left. left.draft.script.rows ≡ []) }
{
    act(alloc, block, &mut buffers.text, &mut buffers.line)
}

/// Takes a row: an instruction row without a fault is kept to act, and any other is answered behind the rows before.
fn take_row(
    alloc: Global,
    block: Block,
    row: &Fields<'_>,
    buffers: &mut Buffers,
) -> Result<Block, NoMemory>
    ensures { IfOk result (λ after. Went (row.now ∷ []) block after buffers.old.text.items buffers.new.text.items) }
{
    match read_row(alloc, row, &mut buffers.words) {
        Ok(Asked::Instruction) => take_instruction(alloc, block, buffers),
        Ok(Asked::Swap(words)) => take_swap(alloc, block, words, buffers),
        Ok(Asked::Clock(now)) => answer_clock(alloc, block, now, buffers),
        Ok(Asked::Book { market, depth }) => answer_book(alloc, block, market, depth, buffers),
        Ok(Asked::Dump) => answer_dump(alloc, block, buffers),
        Err(RowError::Fault(kind)) => refuse(alloc, block, kind, buffers),
        Err(RowError::NoMemory) => Err(NoMemory),
    }
}

/// Takes the instruction row whose words stand in the buffer.
fn take_instruction(alloc: Global, block: Block, buffers: &mut Buffers) -> Result<Block, NoMemory>
    requires { (row : FieldsOf) × (asked_of row ≡ Ok (Instructs buffers.old.words)) }
    ensures { IfOk result (λ after. (row : FieldsOf) → asked_of row ≡ Ok (Instructs buffers.old.words)
        → Went (row ∷ []) block after buffers.old.text.items buffers.new.text.items) }
{
    let mut block = block;
    match block.add_instruction(&mut buffers.words) {
        Ok(()) => with_room(alloc, block, buffers),
        Err(RowError::Fault(kind)) => refuse(alloc, block, kind, buffers),
        Err(RowError::NoMemory) => Err(NoMemory),
    }
}

/// The block as it is where there is room for more rows, or what is left when its rows acted.
fn with_room(alloc: Global, block: Block, buffers: &mut Buffers) -> Result<Block, NoMemory>
    ensures { IfOk result (λ after. Went [] block after buffers.old.text.items buffers.new.text.items) }
{
    if block.len() < MOST {
        Ok(block)
    } else {
        answer_all(alloc, block, buffers)
    }
}

/// Says that a row has a fault.
fn refuse(
    alloc: Global,
    block: Block,
    kind: FaultKind,
    buffers: &mut Buffers,
) -> Result<Block, NoMemory>
    ensures { IfOk result (λ after. SaidIn block after (fault_line block kind)
        buffers.old.text.items buffers.new.text.items) }
{
    let block = answer_all(alloc, block, buffers)?;
    write_fault(alloc, &block, kind, &mut buffers.text)?;
    Ok(block)
}

/// Writes that the next row has a fault.
fn write_fault(
    alloc: Global,
    block: &Block,
    kind: FaultKind,
    text: &mut Vec<u8>,
) -> Result<(), NoMemory>
    ensures { OnOk result (text.new.items ≡ text.old.items ++ fault_line block.now kind) }
{
    let told = ScriptRefused {
        row: block.number(),
        kind: kind.number(),
        code: kind.code(),
    };
    let Ok(line) = script_refused_text(alloc, told) else {
        return Err(NoMemory);
    };
    match text.extend_from_slice(line.as_bytes()) {
        Ok(()) => Ok(()),
        Err(_) => Err(NoMemory),
    }
}

/// Takes a swap row.
fn take_swap(
    alloc: Global,
    block: Block,
    words: SwapWords,
    buffers: &mut Buffers,
) -> Result<Block, NoMemory>
    requires { (row : FieldsOf) × (asked_of row ≡ Ok (Swaps words)) }
    ensures { IfOk result (λ after. (row : FieldsOf) → asked_of row ≡ Ok (Swaps words)
        → Went (row ∷ []) block after buffers.old.text.items buffers.new.text.items) }
{
    let mut block = block;
    match block.add_swap(alloc, words) {
        Ok(()) => with_room(alloc, block, buffers),
        Err(RowError::Fault(kind)) => refuse(alloc, block, kind, buffers),
        Err(RowError::NoMemory) => Err(NoMemory),
    }
}

/// Sets the clock, and says so.
fn answer_clock(
    alloc: Global,
    block: Block,
    now: i64,
    buffers: &mut Buffers,
) -> Result<Block, NoMemory>
    requires { (row : FieldsOf) × (asked_of row ≡ Ok (Sets now)) }
    ensures { IfOk result (λ after. (row : FieldsOf) → asked_of row ≡ Ok (Sets now)
        → Went (row ∷ []) block after buffers.old.text.items buffers.new.text.items) }
{
    let mut block = answer_all(alloc, block, buffers)?;
    write_clock(now, &mut buffers.text)?;
    block.set_clock(now);
    Ok(block)
}

/// Writes that the clock was set.
fn write_clock(now: i64, text: &mut Vec<u8>) -> Result<(), NoMemory>
    ensures { OnOk result (text.new.items ≡ text.old.items ++ clock_line now) }
{
    match write_head(text, b"clock", None, now.unsigned_abs()) {
        Ok(()) => Ok(()),
        Err(_) => Err(NoMemory),
    }
}

/// Writes the prices of a market, or that there is no such market.
fn answer_book(
    alloc: Global,
    block: Block,
    market: Address,
    depth: u32,
    buffers: &mut Buffers,
) -> Result<Block, NoMemory>
    ensures { IfOk result (λ after. SaidIn block after (shown after market depth)
        buffers.old.text.items buffers.new.text.items) }
{
    let block = answer_all(alloc, block, buffers)?;
    show(alloc, &block, market, depth, &mut buffers.text)?;
    Ok(block)
}

/// Writes the prices of a market of a block, or that there is no such market.
fn show(
    alloc: Global,
    block: &Block,
    market: Address,
    depth: u32,
    text: &mut Vec<u8>,
) -> Result<(), NoMemory>
    ensures { OnOk result (text.new.items ≡ text.old.items ++ shown block.now market depth) }
{
    match block.market(market) {
        Some(accounts) => write_book(alloc, text, accounts, depth),
        None => write_fault(alloc, block, FaultKind::UnknownLabel, text),
    }
}

/// Writes the dump of all accounts.
pub fn answer_dump(alloc: Global, block: Block, buffers: &mut Buffers) -> Result<Block, NoMemory>
    ensures { IfOk result (λ after. SaysDump block after buffers.old.text.items buffers.new.text.items) }
{
    let block = answer_all(alloc, block, buffers)?;
    match append_dump(&mut buffers.text, block.start()) {
        Ok(()) => Ok(block),
        Err(_) => Err(NoMemory),
    }
}
