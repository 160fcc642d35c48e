//! The turns of gates: waited for, and left.

ghost use Rattle.std.specs.Prelude.{◌≡◌, ◌<◌, ◌≤◌, ◌++◌, ◌∷◌, [], Some, length, vec_capacity};
ghost use Rattle.dex_gate.specs.declared.stage.Stage.TheVariants.{Idle, Out};
ghost use Rattle.dex_gate.specs.History.{Extends, added, of_lane};
ghost use Rattle.dex_journals.specs.Journals.{left_by, market_calls, wallet_entries};
ghost use Rattle.dex_turns.specs.Submitted.{Written};
ghost use Rattle.dex_turns.specs.Turns.{HasLeft, IsAboveMarkets, IsAboveWallets, IsAwayFor, IsHomeAt, IsOutAt};
ghost use Rattle.dex_turns.specs.Turns.{IsWalletOutAt, MayLeave, first_in};

use dex_gate::{Away, Gate, Journaled, Pass, Turn};
use dex_journals::{BankMarket, BankWallet, WalletTrail};
use dex_stamps::Stamp;
use dex_wallet::WalletCell;
use std::sync::Wait;

/// Draws a ticket at a gate, and waits for its turn.
fn turn_at<V: Journaled, R: Wait>(rt: &R, gate: &Gate<V>, pass: &mut Pass<V>) -> Turn<V>
    requires gate { pass.old.gate ≡ Some gate.now }
    requires idle { pass.old.stage ≡ Idle }
    ensures pass { pass.new ≡ record pass.old { stage = Out (V.entries result.value) } }
    ensures turn { (result.gate ≡ Some gate.now) × (result.number ≡ pass.old.number)
        × (result.start ≡ V.entries result.value) }
    ensures origin { V.origin result.value ≡ gate.now.origin }
    ensures seen { Extends pass.old.seen (V.entries result.value) }
    ensures mine { of_lane V.lane pass.old.number (added gate.now.opening (V.entries result.value))
        ≡ pass.old.mine }
{
    gate.draw(pass);
    gate.wait_turn(rt, pass)
}

/// Waits for the turn of the market at a place, which is above all markets whose turns the lane has, and takes it out.
/// The stamp is the later of this one and the market's last.
pub(crate) fn take_at<R: Wait>(
    rt: &R,
    gate: &Gate<BankMarket>,
    passes: &mut Vec<Pass<BankMarket>>,
    place: usize,
    last: &Stamp,
) -> (BankMarket, Away<BankMarket>, Stamp)
    requires home { IsHomeAt gate.now place passes.old.items }
    requires rising { IsAboveMarkets gate.now passes.old.items }
    ensures out { IsOutAt gate.now place passes.old.items passes.new.items result.0 }
    ensures away { IsAwayFor gate.now place passes.old.items (market_calls result.0) result.1 }
    ensures market { result.0.last ≤ result.2.number }
    ensures stamp { last.now.number ≤ result.2.number }
{
    let (market, away) = turn_at(rt, gate, &mut passes[place]).take();
    let stamp = market.later(last);
    (market, away, stamp)
}

/// Waits for the turn of the wallet at a place, which is above all wallets whose turns the lane has, and takes its cell
/// out.
pub(crate) fn take_wallet_at<R: Wait>(
    rt: &R,
    gate: &Gate<BankWallet>,
    passes: &mut Vec<Pass<BankWallet>>,
    place: usize,
) -> (WalletCell, WalletTrail, Away<BankWallet>)
    requires home { IsHomeAt gate.now place passes.old.items }
    requires rising { IsAboveWallets gate.now passes.old.items }
    ensures cell { result.0 ≡ result.1.before }
    ensures out { IsWalletOutAt gate.now place passes.old.items passes.new.items result.1 }
    ensures away { IsAwayFor gate.now place passes.old.items (wallet_entries (left_by result.1)) result.2 }
{
    let (wallet, away) = turn_at(rt, gate, &mut passes[place]).take();
    let (cell, trail) = wallet.into_parts();
    (cell, trail, away)
}

/// Puts the cell of a wallet back with an item's entry, and leaves the turn.
pub(crate) fn leave_wallet(
    gate: &Gate<BankWallet>,
    pass: &mut Pass<BankWallet>,
    cell: WalletCell,
    trail: WalletTrail,
    away: Away<BankWallet>,
    stamp: &Stamp,
)
    requires entry { (written : Written) × (written.stamp ≡ stamp.now.number)
        × MayLeave written gate.now pass.old trail cell }
    requires away { away ≡ record {
      gate = Some gate.now;
      number = pass.old.number;
      start = wallet_entries (left_by trail);
    } }
    ensures { (written : Written) → written.stamp ≡ stamp.now.number
        → MayLeave written gate.now pass.old trail cell → HasLeft written trail pass.old pass.new }
{
    let wallet = trail.with(cell, stamp);
    gate.leave(pass, away.put(wallet));
}

/// The place of the first of the wallets that are still to come, if there is one: it stands at the front, before
/// `u16::MAX`.
pub(crate) fn first_of(others: &[u16]) -> Option<usize>
    ensures { result ≡ first_in others.now }
{
    match others.first() {
        Some(place) if *place != u16::MAX => Some(*place as usize),
        _ => None,
    }
}

/// Takes the last of the cells in hand.
pub(crate) fn take_from_hand(hands: &mut Vec<WalletCell>) -> WalletCell
    requires { 0 < length hands.old.items }
    ensures items { hands.old.items ≡ hands.new.items ++ result ∷ [] }
    ensures room { vec_capacity hands.old ≤ vec_capacity hands.new }
{
    hands.pop().unwrap()
}
