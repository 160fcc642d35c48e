//! Funds out of a market, and opening, closing and disabling, done in place. None takes memory.

ghost use Rattle.std.specs.Prelude.{◌≡◌, map};
ghost use Rattle.dex_accounts.specs.Decoded.{AreSound, market_in};
ghost use Rattle.dex_market.specs.MarketAccount.{IsMarket};
ghost use Rattle.dex_orders.specs.OrdersAccount.{IsBlank};
ghost use Rattle.dex_ring.specs.PendingFills.{pending_fills_of};
ghost use Rattle.dex_settle.specs.PayingOut.{swept, with_disabled};
ghost use Rattle.dex_step.specs.Acting.{HasStepped};
ghost use Rattle.dex_step.specs.FundActs as acts;
ghost use Rattle.dex_step.specs.FundBytes.{
  CanChange,
  CanClose,
  CanSettle,
  HasChanged,
  HasClosed,
  HasOpened,
  HasSettled,
};
ghost use Rattle.dex_lent.specs.Flat.{accounts_in};
ghost use Rattle.dex_lent.specs.Lent.{KeepsPlaces, lent_of};
ghost use Rattle.dex_types.specs.Accounts.{orders_account_of};

use crate::steps_orders::StepsOrders;
use crate::vaults::take_out;
use dex_accounts::place_of;
use dex_lent::{DATA, LentMarket, data_at};
use dex_market::MarketView;
use dex_orders::{OrdersView, close, init};
use dex_settle::{SettlePlan, apply_disable, apply_settle, apply_sweep};
use dex_types::{Address, OrdersAccount, Reply};

/// Settling, on the bytes of the market account and of an open account.
fn settle_on_bytes(plan: &SettlePlan, market: &mut [u8], account: &mut [u8])
    requires { CanSettle plan.now market.old account.old }
    ensures { HasSettled plan.entry.now market.old market.new account.old account.new }
{
    apply_settle(
        plan,
        &mut MarketView { bytes: market },
        &mut OrdersView { bytes: account },
    );
}

/// Settling the owner's account among those that own their bytes.
pub(crate) fn settle_owned(
    plan: &SettlePlan,
    owner: Address,
    market: &mut [u8],
    accounts: &mut [OrdersAccount],
)
    requires { CanChange owner (CanSettle plan.now market.old) (map orders_account_of accounts.old) }
    ensures { HasChanged owner (HasSettled plan.entry.now market.old market.new)
        (map orders_account_of accounts.old) (map orders_account_of accounts.new) }
{
    let place = place_of(accounts, owner);
    settle_on_bytes(plan, market, &mut accounts[place].bytes);
}

/// Settling the owner's account among records.
pub(crate) fn settle_flat(plan: &SettlePlan, owner: Address, market: &mut [u8], accounts: &mut [u8])
    requires { CanChange owner (CanSettle plan.now market.old) (accounts_in accounts.old) }
    ensures { HasChanged owner (HasSettled plan.entry.now market.old market.new)
        (accounts_in accounts.old) (accounts_in accounts.new) }
{
    let at = data_at(accounts, owner);
    settle_on_bytes(plan, market, &mut accounts[at..at + DATA]);
}

/// An account settled as it was decided: all its free funds and its referrer part leave the vaults, but for what of
/// that goes to the fees.
pub(crate) fn settle_row<O: StepsOrders>(
    accounts: &mut LentMarket<'_, O>,
    owner: Address,
    plan: &SettlePlan,
) -> Reply
    requires sound { AreSound (lent_of O.held accounts.old) }
    requires decided { acts.IsSettleDecided plan.now owner (market_in (lent_of O.held accounts.old)) }
    ensures stepped { let m = market_in (lent_of O.held accounts.old) in
        HasStepped (lent_of O.held accounts.old) (lent_of O.held accounts.new) result
        (pending_fills_of m.events) (acts.settle_step plan.entry.now owner m) }
    ensures places { KeepsPlaces O.place accounts.old accounts.new }
{
    accounts.orders.settle(plan, owner, accounts.market);
    take_out(accounts.coin_vault, plan.coin);
    take_out(accounts.pc_vault, plan.pc + plan.referrer);
    Reply::Settled {
        coin: plan.coin,
        pc: plan.pc,
        referrer: plan.referrer,
    }
}

/// Sweeping, on the bytes of the market account.
fn sweep_on_bytes(market: &mut [u8])
    requires { IsMarket market.old }
    ensures { market.new ≡ swept market.old }
{
    apply_sweep(&mut MarketView { bytes: market });
}

/// The fees swept as it was decided: these, in native pc, leave the pc vault.
pub(crate) fn sweep_row<O: StepsOrders>(accounts: &mut LentMarket<'_, O>, fees: u64) -> Reply
    requires sound { AreSound (lent_of O.held accounts.old) }
    requires decided { acts.IsSweepDecided fees (market_in (lent_of O.held accounts.old)) }
    ensures stepped { let m = market_in (lent_of O.held accounts.old) in
        HasStepped (lent_of O.held accounts.old) (lent_of O.held accounts.new) result
        (pending_fills_of m.events) (acts.sweep_step m) }
    ensures places { KeepsPlaces O.place accounts.old accounts.new }
{
    sweep_on_bytes(accounts.market);
    take_out(accounts.pc_vault, fees);
    Reply::Swept(fees)
}

/// Disabling, on the bytes of the market account.
fn disable_on_bytes(market: &mut [u8])
    requires { IsMarket market.old }
    ensures { market.new ≡ with_disabled market.old }
{
    apply_disable(&mut MarketView { bytes: market });
}

/// The market disabled for good, as it was decided.
pub(crate) fn disable_row<O: StepsOrders>(accounts: &mut LentMarket<'_, O>) -> Reply
    requires sound { AreSound (lent_of O.held accounts.old) }
    requires decided { acts.IsDisableDecided (market_in (lent_of O.held accounts.old)) }
    ensures stepped { let m = market_in (lent_of O.held accounts.old) in
        HasStepped (lent_of O.held accounts.old) (lent_of O.held accounts.new) result
        (pending_fills_of m.events) (acts.disable_step m) }
    ensures places { KeepsPlaces O.place accounts.old accounts.new }
{
    disable_on_bytes(accounts.market);
    Reply::Done
}

/// Opening the owner's account among those that own their bytes.
pub(crate) fn init_owned(
    owner: Address,
    market: Address,
    person: Address,
    accounts: &mut [OrdersAccount],
)
    requires { CanChange owner IsBlank (map orders_account_of accounts.old) }
    ensures { HasChanged owner (HasOpened market person)
        (map orders_account_of accounts.old) (map orders_account_of accounts.new) }
{
    let place = place_of(accounts, owner);
    init(&mut accounts[place].bytes, market, person);
}

/// Opening the owner's account among records.
pub(crate) fn init_flat(owner: Address, market: Address, person: Address, accounts: &mut [u8])
    requires { CanChange owner IsBlank (accounts_in accounts.old) }
    ensures { HasChanged owner (HasOpened market person)
        (accounts_in accounts.old) (accounts_in accounts.new) }
{
    let at = data_at(accounts, owner);
    init(&mut accounts[at..at + DATA], market, person);
}

/// An account that was never opened is opened for the signer, as it was decided.
pub(crate) fn init_row<O: StepsOrders>(
    accounts: &mut LentMarket<'_, O>,
    owner: Address,
    signer: Address,
) -> Reply
    requires sound { AreSound (lent_of O.held accounts.old) }
    requires decided { acts.IsInitDecided owner signer (market_in (lent_of O.held accounts.old)) }
    ensures stepped { let m = market_in (lent_of O.held accounts.old) in
        HasStepped (lent_of O.held accounts.old) (lent_of O.held accounts.new) result
        (pending_fills_of m.events) (acts.init_step owner signer m) }
    ensures places { KeepsPlaces O.place accounts.old accounts.new }
{
    accounts.orders.init(owner, accounts.address, signer);
    Reply::Done
}

/// Closing the owner's account among those that own their bytes.
pub(crate) fn close_owned(owner: Address, accounts: &mut [OrdersAccount])
    requires { CanChange owner CanClose (map orders_account_of accounts.old) }
    ensures { HasChanged owner HasClosed
        (map orders_account_of accounts.old) (map orders_account_of accounts.new) }
{
    let place = place_of(accounts, owner);
    close(&mut accounts[place].bytes);
}

/// Closing the owner's account among records.
pub(crate) fn close_flat(owner: Address, accounts: &mut [u8])
    requires { CanChange owner CanClose (accounts_in accounts.old) }
    ensures { HasChanged owner HasClosed
        (accounts_in accounts.old) (accounts_in accounts.new) }
{
    let at = data_at(accounts, owner);
    close(&mut accounts[at..at + DATA]);
}

/// An account without funds and orders is closed for good, as it was decided.
pub(crate) fn close_row<O: StepsOrders>(accounts: &mut LentMarket<'_, O>, owner: Address) -> Reply
    requires sound { AreSound (lent_of O.held accounts.old) }
    requires decided { acts.IsCloseDecided owner (market_in (lent_of O.held accounts.old)) }
    ensures stepped { let m = market_in (lent_of O.held accounts.old) in
        HasStepped (lent_of O.held accounts.old) (lent_of O.held accounts.new) result
        (pending_fills_of m.events) (acts.close_step owner m) }
    ensures places { KeepsPlaces O.place accounts.old accounts.new }
{
    accounts.orders.close(owner);
    Reply::Done
}
