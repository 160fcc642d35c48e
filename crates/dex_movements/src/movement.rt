//! The movement of one wallet.

ghost use Rattle.std.specs.Prelude.{◌≡◌, ◌∷◌, List, Option, if◌then◌else◌};
ghost use Rattle.dex_types.specs.Addresses.{is_same};
ghost use Rattle.dex_types.specs.declared.rows.WalletSeen.{WalletSeen};
ghost use Rattle.dex_types.specs.Wallets as wallets;
ghost use Rattle.dex_types.specs.WalletJournal.{CanMove};
ghost use Rattle.dex_movements.specs.Amounts.{CanMoveEach, transfers_of};

use crate::amounts::Amounts;
use dex_types::{Address, MoveKind, Movement, Seen, WalletSeen, is_same};

/// The amount of a role, where its wallet is this one, else 0. An amount of nothing is compared with no wallet.
fn amount_at(wallet: Address, role: &Option<WalletSeen>, amount: u64) -> u64
    ensures { result ≡ wallets.amount_at wallet role.now amount }
{
    match role {
        Some(other) => amount_of(wallet, other.address, amount),
        None => 0,
    }
}

/// The amount, where a role's wallet is this one, else 0.
fn amount_of(wallet: Address, role: Address, amount: u64) -> u64
    ensures { result ≡ (if is_same wallet role then amount else 0) }
{
    if amount != 0 && is_same(wallet, role) {
        amount
    } else {
        0
    }
}

/// What is taken from a wallet.
fn taken_from(seen: &Seen, amounts: &Amounts, wallet: Address) -> u128
    ensures { result ≡ wallets.taken_from seen.now (transfers_of amounts.now) wallet }
{
    let coin = amount_at(wallet, &seen.coin, amounts.coin_in);
    let pc = amount_at(wallet, &seen.pc, amounts.pc_in);
    u128::from(coin) + u128::from(pc)
}

/// What is brought to a wallet, under all its roles together.
fn brought_to(seen: &Seen, amounts: &Amounts, wallet: Address) -> u128
    ensures { result ≡ wallets.brought_to seen.now (transfers_of amounts.now) wallet }
{
    let coin = amount_at(wallet, &seen.coin, amounts.coin_out);
    let pc = amount_at(wallet, &seen.pc, amounts.pc_out);
    let referrer = amount_at(wallet, &seen.referrer, amounts.referrer_out);
    u128::from(coin) + u128::from(pc) + u128::from(referrer)
}

/// The balance of a wallet in the first of two roles that is it, else what stands in the others.
fn balance_in(wallet: Address, role: &Option<WalletSeen>, others: u64) -> u64
    ensures { (roles : List (Option WalletSeen)) → others ≡ wallets.balance_in wallet roles
        → result ≡ wallets.balance_in wallet (role.now ∷ roles) }
{
    match role {
        Some(other) if is_same(wallet, other.address) => other.balance,
        _ => others,
    }
}

/// The balance of a wallet before the row.
fn balance_seen(seen: &Seen, wallet: Address) -> u64
    ensures { result ≡ wallets.balance_seen seen.now wallet }
{
    let referrer = balance_in(wallet, &seen.referrer, 0);
    let discount = balance_in(wallet, &seen.discount, referrer);
    let pc = balance_in(wallet, &seen.pc, discount);
    balance_in(wallet, &seen.coin, pc)
}

/// A debit or a credit of something, or else a probe of nothing, that is possible at the balance before it.
pub(crate) fn movement_by(wallet: Address, before: u64, taken: u128, brought: u128) -> Movement
    requires { let move = wallets.movement_by wallet before taken brought in CanMove move.kind move.amount move.before }
    ensures { result ≡ wallets.movement_by wallet before taken brought }
{
    let (kind, amount) = if 0 < taken {
        (MoveKind::Debit, taken as u64)
    } else if 0 < brought {
        (MoveKind::Credit, brought as u64)
    } else {
        (MoveKind::Probe, 0)
    };
    Movement {
        wallet,
        kind,
        amount,
        before,
    }
}

/// How a row moves a wallet.
pub(crate) fn movement_of(seen: &Seen, amounts: &Amounts, wallet: Address) -> Movement
    requires { CanMoveEach seen.now (transfers_of amounts.now) }
    ensures { result ≡ wallets.movement_of seen.now (transfers_of amounts.now) wallet }
{
    let before = balance_seen(seen, wallet);
    let taken = taken_from(seen, amounts, wallet);
    let brought = brought_to(seen, amounts, wallet);
    movement_by(wallet, before, taken, brought)
}
