//! The cells of wallets that a row looks at.

ghost use Rattle.std.specs.Prelude.{◌≡◌, ◌∷◌, [], List, map, true};
ghost use Rattle.dex_types.specs.Rows.{row_of};
ghost use Rattle.dex_history.specs.Journal.{front};
ghost use Rattle.dex_wallet.specs.CellState.{CellState};
ghost use Rattle.dex_act.specs.Wallets.{AreSeenAt, CanProbe, IsAt, any_hit, hits};
ghost use Rattle.dex_act.specs.Wallets.{move_probed, moves_probed, roles_of};

use crate::places::Asked;
use dex_types::{Address, MoveKind, Movement, WalletSeen, is_same};
use dex_wallet::WalletCell;

/// Whether a role's wallet is that of the address.
fn is_wallet_of(role: &Option<WalletSeen>, address: Address) -> bool
    ensures { result ≡ hits address role.now }
{
    match role {
        Some(wallet) => is_same(address, wallet.address),
        None => false,
    }
}

/// Where the cell of a wallet that is moved stands: the row sees it under one of its roles.
fn moved_place(asked: &Asked, address: Address) -> usize
    requires { any_hit address (roles_of asked.now.seen.now) ≡ true }
    ensures { (cells : List CellState) → AreSeenAt cells asked.now.seen.now asked.now.places.now
        → IsAt address cells result }
{
    if is_wallet_of(&asked.seen.coin, address) {
        asked.places.coin
    } else if is_wallet_of(&asked.seen.pc, address) {
        asked.places.pc
    } else if is_wallet_of(&asked.seen.discount, address) {
        asked.places.discount
    } else {
        asked.places.referrer
    }
}

/// A row looks at the wallet of a movement that is a probe.
fn probe(cells: &mut [WalletCell], asked: &Asked, movement: &Movement)
    requires { CanProbe (row_of asked.now.row.now) asked.now.seen.now asked.now.places.now (movement.now ∷ [])
        cells.old }
    ensures { cells.new ≡ map (move_probed (row_of asked.now.row.now) movement.entry.now) cells.old }
{
    match movement.kind {
        MoveKind::Probe => {
            let place = moved_place(asked, movement.wallet);
            let cell = &mut cells[place];
            cell.probe(asked.row.market, asked.row.lane, asked.row.number);
        }
        MoveKind::Debit | MoveKind::Credit => {}
    }
}

/// A row looks at each wallet whose movement is a probe: at each that it names and does not move, once.
pub(crate) fn probes(cells: &mut [WalletCell], asked: &Asked, moves: &[Option<Movement>])
    requires { CanProbe (row_of asked.now.row.now) asked.now.seen.now asked.now.places.now (front moves.now)
        cells.old }
    ensures { cells.new ≡ map (moves_probed (row_of asked.now.row.now) (front moves.entry.now)) cells.old }
{
    for at in 0..moves.len() {
        match &moves[at] {
            Some(movement) => probe(cells, asked, movement),
            None => return,
        }
    }
}
