//! Whether an open-orders account may be opened or closed.

ghost use Rattle.std.specs.Prelude.{◌≡◌, ◌+◌, IsOk, Some, None};
ghost use Rattle.dex_types.specs.Reasons.{answered};
ghost use Rattle.dex_types.specs.Reasons as reasons;
ghost use Rattle.dex_market.specs.MarketAccount.{IsMarket, market_words};
ghost use Rattle.dex_orders.specs.OrdersAccount.{IsBlank, IsEmptyAccount, IsOpen, IsOrders, account_of};
ghost use Rattle.dex_orders.specs.StandsFor.{trader_of};
ghost use Rattle.dex_settle.specs.Refusing as refusing;

use dex_market::MarketRef;
use dex_orders::{Funds, OrdersRef, OrdersState, state_of};
use dex_reasons::{disabled, not_owner};
use dex_types::{Address, Refusal};

/// The account was opened before.
fn not_blank(account: &[u8]) -> Option<Refusal>
    requires { IsOrders account.now }
    ensures reason { result ≡ reasons.not_blank (Some (trader_of account.now)) }
    ensures blank { result ≡ None → IsBlank account.now }
{
    match state_of(account) {
        OrdersState::Blank => None,
        OrdersState::Open | OrdersState::Closed => Some(Refusal::AccountExists),
    }
}

/// Whether the account may be opened on the market, or why that is refused. It reads only.
///
/// Refused are, in this order: an account of a disabled market; one that was opened before, whether closed since or
/// not.
pub fn decide_init(market: &MarketRef<'_>, account: &[u8]) -> Result<(), Refusal>
    requires market { IsMarket market.now.bytes.now }
    requires account { IsOrders account.now }
    ensures answer { result ≡ answered (refusing.init_reason (market_words market.now.bytes.now).account_flags
        (trader_of account.now)) tt }
    ensures blank { IsOk result → IsBlank account.now }
{
    match disabled(market.account_flags()).or(not_blank(account)) {
        Some(why) => Err(why),
        None => Ok(()),
    }
}

/// All native funds of an account together: both totals and the referrer part.
fn all_funds(funds: Funds) -> u128
    ensures { result ≡ funds.coin_total + funds.pc_total + funds.referrer }
{
    u128::from(funds.coin_total) + u128::from(funds.pc_total) + u128::from(funds.referrer)
}

/// The account holds orders or funds.
fn not_empty(orders: &OrdersRef<'_>) -> Option<Refusal>
    requires { IsOpen orders.now.bytes.now }
    ensures reason { result ≡ reasons.not_empty (account_of orders.now.bytes.now) }
    ensures empty { result ≡ None → IsEmptyAccount (account_of orders.now.bytes.now) }
{
    let slots = u32::from(orders.taken());
    let funds = all_funds(orders.funds());
    if 0 < slots || 0 < funds {
        Some(Refusal::NotEmpty { slots, funds })
    } else {
        None
    }
}

/// Whether the account may be closed, or why that is refused. It reads only.
///
/// Refused are, in this order: an account that isn't open; a signer who is not its owner; one with taken slots or
/// native funds, which are both totals and the referrer part.
pub fn decide_close(account: &[u8], signer: Address) -> Result<(), Refusal>
    requires { IsOrders account.now }
    ensures answer { result ≡ answered (refusing.close_reason signer (trader_of account.now)) tt }
    ensures opened { IsOk result → IsOpen account.now }
    ensures empty { IsOk result → IsEmptyAccount (account_of account.now) }
{
    match close_reason(account, signer) {
        Some(why) => Err(why),
        None => Ok(()),
    }
}

fn close_reason(account: &[u8], signer: Address) -> Option<Refusal>
    requires { IsOrders account.now }
    ensures reason { result ≡ refusing.close_reason signer (trader_of account.now) }
    ensures opened { result ≡ None → IsOpen account.now }
    ensures empty { result ≡ None → IsEmptyAccount (account_of account.now) }
{
    match state_of(account) {
        OrdersState::Open => {
            let orders = OrdersRef { bytes: account };
            not_owner(orders.owner(), signer).or(not_empty(&orders))
        }
        OrdersState::Blank | OrdersState::Closed => Some(Refusal::NoAccount),
    }
}
