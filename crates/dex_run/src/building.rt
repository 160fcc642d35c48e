//! The bank of a script, and a seat for each lane.

ghost use Rattle.std.specs.Prelude.{◌≡◌, ◌<◌, [], All, IfOk, OnOk, Some, map};
ghost use Rattle.std.specs.List.{AllZip, range_with_len};
ghost use Rattle.dex_gate.specs.GateView.{GateView};
ghost use Rattle.dex_gate.specs.PassView.{PassView, first_pass, next_pass};
ghost use Rattle.dex_bank.specs.Opened.{opened};
ghost use Rattle.dex_turns.specs.Bank.{IsBank, IsGate, IsMarketGate, IsWalletGate};
ghost use Rattle.dex_run.specs.Opened.{first_passes, seat_in, split_once};
ghost use Rattle.dex_turns.specs.Seats.{IsSeatOf, SeatState};

use crate::of_cell::OfCell;
use dex_bank::Cells;
use dex_gate::{Gate, Journaled, Pass};
use dex_journals::{BankMarket, BankWallet};
use dex_script_types::Script;
use dex_turns::{Bank, LaneSeat, Outline};
use dex_types::{NoMemory, add};
use std::alloc::Global;

// ---- gates

/// The gate of a cell, and its first pass.
fn gate_over<V: OfCell + Drop>(
    alloc: Global,
    cell: V::Cell,
    outline: &Outline,
) -> Result<(Gate<V>, Pass<V>), NoMemory>
    requires { V.fresh outline.now cell }
    ensures gate { IfOk result (λ made. IsGate outline.now.lanes (V.from outline.now cell) made.0) }
    ensures pass { IfOk result (λ made. made.1 ≡ first_pass made.0) }
{
    let value = V::over(alloc, cell, outline.kept())?;
    match Gate::open(alloc, value, outline.lanes()) {
        Ok(made) => Ok(made),
        Err(_) => Err(NoMemory),
    }
}

/// The gates of all cells, and their first passes.
fn gates_over<V: OfCell + Drop>(
    alloc: Global,
    cells: Vec<V::Cell>,
    outline: &Outline,
) -> Result<(Vec<Gate<V>>, Vec<Pass<V>>), NoMemory>
    requires { All (V.fresh outline.now) cells.items }
    ensures gates { IfOk result (λ made. AllZip
        (λ (cell : V.Cell) (gate : GateView V.Entry V.Origin). IsGate outline.now.lanes (V.from outline.now cell) gate)
        cells.items made.0.items) }
    ensures passes { IfOk result (λ made. made.1.items ≡ first_passes 1 made.0.items) }
{
    let mut gates = Vec::new(alloc);
    let mut passes = Vec::new(alloc);
    for cell in cells {
        let (gate, pass) = gate_over(alloc, cell, outline)?;
        add(&mut gates, gate)?;
        add(&mut passes, pass)?;
    }
    Ok((gates, passes))
}

// ---- seats

/// The next pass for each gate.
fn split_all<V: Journaled>(
    alloc: Global,
    gates: &[Gate<V>],
    firsts: &mut Vec<Pass<V>>,
) -> Result<Vec<Pass<V>>, NoMemory>
    requires gates { AllZip (λ (gate : GateView V.Entry V.Origin) (pass : PassView V.Entry V.Origin).
        pass.gate ≡ Some gate) gates.now firsts.old.items }
    requires some { All (λ (pass : PassView V.Entry V.Origin). pass.next < pass.until) firsts.old.items }
    ensures given { IfOk result (λ given. given.items ≡ map next_pass firsts.old.items) }
    ensures kept { OnOk result (firsts.new.items ≡ map split_once firsts.old.items) }
{
    let mut given = Vec::new(alloc);
    for place in 0..gates.len() {
        let pass = gates[place].split(&mut firsts[place]);
        add(&mut given, pass)?;
    }
    Ok(given)
}

/// The seats of all lanes.
fn seats_of(
    alloc: Global,
    outline: &Outline,
    markets: &[Gate<BankMarket>],
    wallets: &[Gate<BankWallet>],
    mut market_passes: Vec<Pass<BankMarket>>,
    mut wallet_passes: Vec<Pass<BankWallet>>,
) -> Result<Vec<LaneSeat>, NoMemory>
    requires markets { AllZip (IsMarketGate outline.now) outline.now.start.markets markets.now }
    requires wallets { AllZip (IsWalletGate outline.now) outline.now.start.wallets wallets.now }
    requires market_passes { market_passes.items ≡ first_passes 1 markets.now }
    requires wallet_passes { wallet_passes.items ≡ first_passes 1 wallets.now }
    ensures { IfOk result (λ seats. seats.items
        ≡ map (seat_in (record { script = outline.now; markets = markets.now; wallets = wallets.now }))
        (range_with_len 0 outline.now.lanes)) }
{
    let mut seats = Vec::new(alloc);
    for lane in 1..outline.lanes() {
        let of_markets = split_all(alloc, markets, &mut market_passes)?;
        let of_wallets = split_all(alloc, wallets, &mut wallet_passes)?;
        let seat = LaneSeat::open(alloc, outline, lane, of_markets, of_wallets)?;
        add(&mut seats, seat)?;
    }
    let first = LaneSeat::open(alloc, outline, 0, market_passes, wallet_passes)?;
    match seats.insert(0, first) {
        Ok(()) => Ok(seats),
        Err(_) => Err(NoMemory),
    }
}

// ---- the bank

/// The bank of a script's cells, and one seat for each lane, by their numbers. The cells themselves go behind the
/// gates.
pub(crate) fn bank_over(
    alloc: Global,
    outline: Outline,
    cells: Cells,
) -> Result<(Bank, Vec<LaneSeat>), NoMemory>
    requires { cells ≡ opened outline }
    ensures bank { IfOk result (λ made. made.0.script ≡ outline) }
    ensures kept { IfOk result (λ made. IsBank made.0) }
    ensures seats { IfOk result (λ made. All (IsSeatOf made.0) made.1.items) }
    ensures lanes { IfOk result (λ made. map (λ (seat : SeatState). seat.lane) made.1.items
        ≡ range_with_len 0 outline.lanes) }
    ensures fresh { IfOk result (λ made. All (λ (seat : SeatState). seat.calls ≡ []) made.1.items) }
{
    let (mints, markets, wallets) = cells.into_parts();
    let (markets, market_passes) = gates_over(alloc, markets, &outline)?;
    let (wallets, wallet_passes) = gates_over(alloc, wallets, &outline)?;
    let seats = seats_of(
        alloc,
        &outline,
        &markets,
        &wallets,
        market_passes,
        wallet_passes,
    )?;
    Ok((Bank::of(outline, mints, markets, wallets), seats))
}

/// The bank of a script, and one seat for each lane, by their numbers. Asks memory.
pub fn build(alloc: Global, script: &Script) -> Result<(Bank, Vec<LaneSeat>), NoMemory>
    ensures bank { IfOk result (λ made. made.0.script ≡ script.now) }
    ensures kept { IfOk result (λ made. IsBank made.0) }
    ensures seats { IfOk result (λ made. All (IsSeatOf made.0) made.1.items) }
    ensures lanes { IfOk result (λ made. map (λ (seat : SeatState). seat.lane) made.1.items
        ≡ range_with_len 0 script.now.lanes) }
    ensures fresh { IfOk result (λ made. All (λ (seat : SeatState). seat.calls ≡ []) made.1.items) }
{
    let outline = Outline::of(alloc, script)?;
    let cells = Cells::open(alloc, script)?;
    bank_over(alloc, outline, cells)
}
