//! What an entry of a journal tells of deposits and settlements.

ghost use Rattle.std.specs.Prelude.{◌≡◌, true, ◌≤◌, Some, length, map};
ghost use Rattle.std.specs.List.{AllPairs};
ghost use Rattle.dex_types.specs.declared.addresses.Address.{Address as AddressOf};
ghost use Rattle.dex_types.specs.Rows.{PlainRow, row_of};
ghost use Rattle.dex_types.specs.Totals.{total};
ghost use Rattle.dex_history.specs.Journal.{Call, front};
ghost use Rattle.dex_history.specs.Mints.{debited};
ghost use Rattle.dex_instruction.specs.Reading.{decoded};
ghost use Rattle.dex_replay.specs.EntryCalls.{call_told};
ghost use Rattle.dex_script_types.specs.PlainScript.{PlainScript};
ghost use Rattle.dex_worth.specs.Amounts as tally;
ghost use Rattle.dex_worth.specs.Entries as told;
ghost use Rattle.dex_replay.specs.Told as book;

use crate::amounts::{NONE, TokenAmounts, on_side};
use crate::rows::find_row;
use dex_instruction::decode;
use dex_types::{Address, Entry, Ix, MoveKind, Movement, Reply, Row, Side};

/// What a movement takes from its wallet.
fn debit_of(movement: Movement) -> u64
    ensures { result ≡ debited movement }
{
    match movement.kind {
        MoveKind::Debit => movement.amount,
        MoveKind::Credit => 0,
        MoveKind::Probe => 0,
    }
}

/// What the movements before the first empty place take from wallets.
fn debits_of(moves: &[Option<Movement>]) -> u128
    requires { length moves.now ≤ 4 }
    ensures { result ≡ total debited (front moves.now) }
{
    let mut sum: u128 = 0;
    for place in 0..moves.len() {
        match moves[place] {
            Some(movement) => sum += u128::from(debit_of(movement)),
            None => return sum,
        }
    }
    sum
}

/// The side of a row's new order, where it is one.
fn side_of(bytes: &[u8]) -> Option<Side>
    ensures { result ≡ book.side_of (decoded bytes.now) }
{
    match decode(bytes) {
        Ok(Ix::NewOrderV3 { side, .. }) => Some(side),
        _ => None,
    }
}

/// What a row deposited, by all that its entry took from wallets.
fn deposited_by(row: &Row, debits: u128) -> TokenAmounts
    ensures { result ≡ told.entered (book.side_of (decoded (row_of row.entry.now).bytes)) debits }
{
    match side_of(&row.bytes) {
        Some(side) => on_side(side, debits),
        None => NONE,
    }
}

/// What a reply tells of funds that were settled out.
fn settled_by(reply: Reply) -> TokenAmounts
    ensures { result ≡ told.settled_by reply }
{
    match reply {
        Reply::Settled { coin, pc, .. } => TokenAmounts {
            coin: u128::from(coin),
            pc: u128::from(pc),
        },
        _ => NONE,
    }
}

/// What was moved for an account: what was deposited for it, and what was settled out to it.
#[derive(Clone, Copy, Debug)]
pub struct Moved {
    pub owner: Address,
    pub deposited: TokenAmounts,
    pub settled: TokenAmounts,
}

/// What a row and its entry moved for the account that the row names first.
fn moved_for(row: &Row, debits: u128, settled: TokenAmounts) -> Option<Moved>
    ensures deposited { (owner : AddressOf) → told.deposited_in owner result ≡ told.for_first owner
        (row_of row.entry.now).named (told.entered (book.side_of (decoded (row_of row.entry.now).bytes)) debits) }
    ensures settled { (owner : AddressOf) → told.settled_in owner result ≡ told.for_first owner
        (row_of row.entry.now).named settled }
{
    let owner = row.named.first().copied()?;
    let deposited = deposited_by(row, debits);
    Some(Moved {
        owner,
        deposited,
        settled,
    })
}

/// Whether nothing was taken from wallets, and nothing settled.
fn is_nothing(debits: u128, settled: TokenAmounts) -> bool
    ensures { result ≡ true → (debits ≡ 0) × (settled ≡ tally.none) }
{
    debits == 0 && settled.coin == 0 && settled.pc == 0
}

/// What an entry of the market's journal moved for an account, by its row.
pub(crate) fn moved_by(rows: &[Row], market: Address, entry: &Entry) -> Option<Moved>
    requires { AllPairs (λ (one other : PlainRow). one.number ≤ other.number) (map row_of rows.now) }
    ensures { (script : PlainScript) (call : Call) → map row_of rows.now ≡ script.rows
        → call_told script market entry.now ≡ Some call → told.AreMoved call result }
{
    let debits = debits_of(&entry.moves);
    let settled = settled_by(entry.reply);
    if is_nothing(debits, settled) {
        return None;
    }
    match find_row(rows, market, entry.row) {
        Some(place) => moved_for(&rows[place], debits, settled),
        None => None,
    }
}
