//! All seats come back, and what the bank leaves.

ghost use Rattle.std.specs.Prelude.{◌≡◌, List, All, IfErr, IfOk, IfSome, length, map, vec_len};
ghost use Rattle.std.specs.List.{range_with_len};
ghost use Rattle.dex_state.specs.Outcomes.{PlainOutcome, outcome_of};
ghost use Rattle.dex_script_types.specs.PlainScript.{PlainScript};
ghost use Rattle.dex_replay.specs.Runs.{IsOneOrder, IsRunOf};
ghost use Rattle.dex_turns.specs.Bank.{IsBank};
ghost use Rattle.dex_run.specs.Closing.{ClosesAs, HasGateRoom, HasRoom};
ghost use Rattle.dex_run.specs.Closing.{MarketColumns, WalletColumns};
ghost use Rattle.dex_run.specs.Columns.{AreEmpty};
ghost use Rattle.dex_turns.specs.Seats.{IsDone, IsSeat, IsSeatOf, SeatState};

use crate::columns::{closed_cells, columns_for, hand_out};
use dex_bank::{Cells, Room};
use dex_cell::MarketCell;
use dex_gate::Pass;
use dex_journals::{BankMarket, BankWallet};
use dex_replay::laws::what_one_order_leaves_is_a_run;
use dex_serializable::laws::what_lanes_leave_is_a_replay;
use dex_state::Outcome;
use dex_turns::{Bank, BankParts, LaneSeat};
use dex_wallet::WalletCell;
use std::alloc::Global;

// ---- room

/// Room for closing the gates of one kind: a column for the passes of each, and the cells that they give.
#[derive(Drop)]
struct GateRoom<P, C> {
    columns: Vec<Vec<P>>,
    cells: Vec<C>,
}

/// Room for this many gates with this many passes each, if there is memory for it.
fn gate_room<P: Drop, C: Drop>(alloc: Global, gates: usize, lanes: usize) -> Option<GateRoom<P, C>>
    ensures { IfSome result (HasGateRoom gates lanes) }
{
    let columns = columns_for(alloc, gates, lanes)?;
    let cells = Vec::with_capacity(alloc, gates).ok()?;
    Some(GateRoom { columns, cells })
}

/// Room for closing a bank.
#[derive(Drop)]
struct ClosingRoom {
    markets: GateRoom<Pass<BankMarket>, MarketCell>,
    wallets: GateRoom<Pass<BankWallet>, WalletCell>,
    left: Room,
}

/// Room for closing a bank of this many markets and wallets with this many lanes, if there is memory for it.
fn closing_room(alloc: Global, markets: usize, wallets: usize, lanes: usize) -> Option<ClosingRoom>
    ensures { IfSome result (HasRoom markets wallets lanes) }
{
    let left = Room::reserve(alloc, markets, wallets).ok()?;
    let markets = gate_room(alloc, markets, lanes)?;
    let wallets = gate_room(alloc, wallets, lanes)?;
    Some(ClosingRoom {
        markets,
        wallets,
        left,
    })
}

// ---- the passes of all seats

/// Hands the passes of all seats out to the columns of their gates.
fn hand_out_all(
    bank: &Bank,
    seats: Vec<LaneSeat>,
    markets: &mut Vec<Vec<Pass<BankMarket>>>,
    wallets: &mut Vec<Vec<Pass<BankWallet>>>,
)
    requires bank { IsBank bank.now }
    requires seats { All (IsSeatOf bank.now) seats.items }
    requires markets { AreEmpty (length bank.now.markets) (vec_len seats) markets.old.items }
    requires wallets { AreEmpty (length bank.now.wallets) (vec_len seats) wallets.old.items }
    ensures markets { MarketColumns bank.now seats.items markets.new.items }
    ensures wallets { WalletColumns bank.now seats.items wallets.new.items }
    ensures kept { All IsSeat seats.items }
{
    for seat in seats {
        let (own, others) = seat.into_passes();
        hand_out(own, markets);
        hand_out(others, wallets);
    }
}

// ---- all of it

/// What a bank leaves when these seats are back.
fn closed(bank: Bank, seats: Vec<LaneSeat>, room: ClosingRoom) -> Outcome
    requires seats { All (IsSeatOf bank) seats.items }
    requires lanes { map (λ seat. seat.lane) seats.items ≡ range_with_len 0 bank.script.lanes }
    requires room { HasRoom (length bank.markets) (length bank.wallets) (vec_len seats) room }
    ensures { All IsDone seats.items → ClosesAs bank.script seats.items (outcome_of result) }
{
    let ClosingRoom {
        mut markets,
        mut wallets,
        left,
    } = room;
    hand_out_all(&bank, seats, &mut markets.columns, &mut wallets.columns);
    let BankParts {
        mints,
        terms,
        markets: market_gates,
        wallets: wallet_gates,
    } = bank.into_parts();
    let market_cells = closed_cells(market_gates, markets.columns, markets.cells);
    let wallet_cells = closed_cells(wallet_gates, wallets.columns, wallets.cells);
    Cells::of(mints, terms, market_cells, wallet_cells).close_into(left)
}

/// What lanes leave when their rows are done is what all items leave one after the other, in some order that keeps the
/// order of each lane; so it is a run of their script.
fn what_closes_is_a_run()
    ensures one_order { (script : PlainScript) (seats : List SeatState) (outcome : PlainOutcome)
        → ClosesAs script seats outcome → IsOneOrder script outcome }
    ensures run { (script : PlainScript) (seats : List SeatState) (outcome : PlainOutcome)
        → ClosesAs script seats outcome → IsRunOf script outcome }
{
    what_lanes_leave_is_a_replay();
    what_one_order_leaves_is_a_run();
}

/// Takes all seats back, by the numbers of their lanes, and gives what is left: where all their rows are done, the
/// journals hold just the calls of these seats. Where there is no memory for it, all come back untouched.
pub fn close(
    alloc: Global,
    bank: Bank,
    seats: Vec<LaneSeat>,
) -> Result<Outcome, (Bank, Vec<LaneSeat>)>
    requires seats { All (IsSeatOf bank) seats.items }
    requires lanes { map (λ seat. seat.lane) seats.items ≡ range_with_len 0 bank.script.lanes }
    ensures outcome { IfOk result (λ outcome. All IsDone seats.items
        → ClosesAs bank.script seats.items (outcome_of outcome)) }
    ensures run { IfOk result (λ outcome. All IsDone seats.items → IsRunOf bank.script (outcome_of outcome)) }
    ensures one_order { IfOk result (λ outcome. All IsDone seats.items
        → IsOneOrder bank.script (outcome_of outcome)) }
    ensures refused { IfErr result (λ back. (back.0 ≡ bank) × (back.1.items ≡ seats.items)) }
{
    what_closes_is_a_run();
    let (markets, wallets) = bank.counts();
    match closing_room(alloc, markets, wallets, seats.len()) {
        Some(room) => Ok(closed(bank, seats, room)),
        None => Err((bank, seats)),
    }
}
