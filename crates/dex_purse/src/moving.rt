//! How an instruction moves wallets.

ghost use Rattle.std.specs.Prelude.{◌≡◌};
ghost use Rattle.dex_movements.specs.Amounts.{transfers_of};
ghost use Rattle.dex_purse.specs.Purse as purse;

use crate::lent_wallets::{LentWallets, Roles, Slot};
use dex_movements::Amounts;
use dex_token::WalletView;

/// Whether two places are one.
fn is_slot(one: Slot, other: Slot) -> bool
    ensures { result ≡ purse.is_slot one other }
{
    matches!(
        (one, other),
        (Slot::First, Slot::First)
            | (Slot::Second, Slot::Second)
            | (Slot::Third, Slot::Third)
            | (Slot::Fourth, Slot::Fourth)
    )
}

/// The amount of a role, where it names this wallet, else 0.
fn amount_for(slot: Slot, role: Option<Slot>, amount: u64) -> u64
    ensures { result ≡ purse.amount_for slot role amount }
{
    match role {
        Some(other) if is_slot(slot, other) => amount,
        _ => 0,
    }
}

/// What is taken from a wallet.
fn taken_at(slot: Slot, roles: &Roles, amounts: &Amounts) -> u128
    ensures { result ≡ purse.taken_at slot roles.now (transfers_of amounts.now) }
{
    let coin = amount_for(slot, roles.coin, amounts.coin_in);
    let pc = amount_for(slot, roles.pc, amounts.pc_in);
    u128::from(coin) + u128::from(pc)
}

/// What is brought to a wallet, under all its roles together.
fn brought_at(slot: Slot, roles: &Roles, amounts: &Amounts) -> u128
    ensures { result ≡ purse.brought_at slot roles.now (transfers_of amounts.now) }
{
    let coin = amount_for(slot, roles.coin, amounts.coin_out);
    let pc = amount_for(slot, roles.pc, amounts.pc_out);
    let referrer = amount_for(slot, roles.referrer, amounts.referrer_out);
    u128::from(coin) + u128::from(pc) + u128::from(referrer)
}

/// Moves a wallet by what is taken from it and what is brought to it; where that is nothing, it is not looked at.
fn move_wallet(bytes: &mut [u8], taken: u128, brought: u128)
    requires { purse.CanMove taken brought bytes.old }
    ensures { bytes.new ≡ purse.moved taken brought bytes.old }
{
    if taken == 0 && brought == 0 {
        return;
    }
    let mut view = WalletView { bytes };
    let held = u128::from(view.amount());
    view.set_amount((held + brought - taken) as u64);
}

/// Moves each wallet by what is taken from it and what is brought to it under the roles that name it.
pub fn move_wallets(wallets: &mut LentWallets<'_>, roles: &Roles, amounts: &Amounts)
    requires { purse.CanMoveEach roles.now (transfers_of amounts.now) (purse.purse_of wallets.old) }
    ensures moved { purse.purse_of wallets.new
        ≡ purse.moved_by roles.now (transfers_of amounts.now) (purse.purse_of wallets.old) }
    ensures kept { purse.AreSameLoans wallets.old wallets.new }
{
    let taken = taken_at(Slot::First, roles, amounts);
    move_wallet(
        wallets.first,
        taken,
        brought_at(Slot::First, roles, amounts),
    );
    let taken = taken_at(Slot::Second, roles, amounts);
    move_wallet(
        wallets.second,
        taken,
        brought_at(Slot::Second, roles, amounts),
    );
    let taken = taken_at(Slot::Third, roles, amounts);
    move_wallet(
        wallets.third,
        taken,
        brought_at(Slot::Third, roles, amounts),
    );
    let taken = taken_at(Slot::Fourth, roles, amounts);
    move_wallet(
        wallets.fourth,
        taken,
        brought_at(Slot::Fourth, roles, amounts),
    );
}
