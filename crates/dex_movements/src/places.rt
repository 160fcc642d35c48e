//! The movements of a row, each in its place.

ghost use Rattle.std.specs.Prelude.{◌≡◌, []};
ghost use Rattle.dex_types.specs.Rows.{row_of};
ghost use Rattle.dex_types.specs.Wallets as wallets;
ghost use Rattle.dex_history.specs.Journal.{Sees, asked_of, places};
ghost use Rattle.dex_movements.specs.Amounts.{CanMoveEach, SeesTwo, moved_place, transfers_of};

use crate::amounts::Amounts;
use crate::movement::{movement_by, movement_of};
use dex_locks::{is_lower, plan_locks};
use dex_types::{Address, Movement, Row, Seen, WalletSeen, is_same};

/// The movement of the wallet of a place, if there is one.
fn moved_at(seen: &Seen, amounts: &Amounts, place: Option<Address>) -> Option<Movement>
    requires { CanMoveEach seen.now (transfers_of amounts.now) }
    ensures { result ≡ moved_place seen.now (transfers_of amounts.now) place }
{
    match place {
        Some(wallet) => Some(movement_of(seen, amounts, wallet)),
        None => None,
    }
}

/// Puts the movements of a row that moves these amounts into empty places: one for each wallet that it names, under
/// whichever roles, by rising address, from the front. Each is a debit of all that is taken from the wallet, else a
/// credit of all that is brought to it, else a probe of nothing, and has the balance that the row saw.
pub fn put_moves(row: &Row, seen: &Seen, amounts: &Amounts, moves: &mut [Option<Movement>; 4])
    requires empty { moves.old ≡ places [] }
    requires sees { Sees (asked_of (row_of row.now)) seen.now }
    requires moves { CanMoveEach seen.now (transfers_of amounts.now) }
    ensures { moves.new ≡ places (wallets.movements seen.now (transfers_of amounts.now)) }
{
    match (&seen.coin, &seen.pc, &seen.discount, &seen.referrer) {
        (Some(coin), Some(pc), None, None) => {
            if is_same(coin.address, pc.address) {
                put_moves_of_any(row, seen, amounts, moves);
            } else {
                put_moves_of_two(seen, coin, pc, amounts, moves);
            }
        }
        _ => put_moves_of_any(row, seen, amounts, moves),
    }
}

/// The movements of the two wallets of nearly all rows: no wallet is compared with another one for its amount.
fn put_moves_of_two(
    seen: &Seen,
    coin: &WalletSeen,
    pc: &WalletSeen,
    amounts: &Amounts,
    moves: &mut [Option<Movement>; 4],
)
    requires empty { moves.old ≡ places [] }
    requires two { SeesTwo seen.now coin.now pc.now }
    requires moves { CanMoveEach seen.now (transfers_of amounts.now) }
    ensures { moves.new ≡ places (wallets.movements seen.now (transfers_of amounts.now)) }
{
    let (of_coin, of_pc) = if is_lower(coin.address, pc.address) {
        (0, 1)
    } else {
        (1, 0)
    };
    moves[of_coin] = Some(movement_by(
        coin.address,
        coin.balance,
        amounts.coin_in as u128,
        amounts.coin_out as u128,
    ));
    moves[of_pc] = Some(movement_by(
        pc.address,
        pc.balance,
        amounts.pc_in as u128,
        amounts.pc_out as u128,
    ));
}

/// The movements of the wallets of any roles.
#[inline(never)]
fn put_moves_of_any(row: &Row, seen: &Seen, amounts: &Amounts, moves: &mut [Option<Movement>; 4])
    requires sees { Sees (asked_of (row_of row.now)) seen.now }
    requires moves { CanMoveEach seen.now (transfers_of amounts.now) }
    ensures { moves.new ≡ places (wallets.movements seen.now (transfers_of amounts.now)) }
{
    let [first, second, third, fourth] = plan_locks(row).wallets;
    *moves = [
        moved_at(seen, amounts, first),
        moved_at(seen, amounts, second),
        moved_at(seen, amounts, third),
        moved_at(seen, amounts, fourth),
    ];
}
