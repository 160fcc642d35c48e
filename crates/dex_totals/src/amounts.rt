//! Amounts of traders, summed.

ghost use Rattle.std.specs.Prelude.{◌≡◌, ◌<◌, ◌^◌};
ghost use Rattle.dex_types.specs.declared.addresses.Address.{Address};
ghost use Rattle.dex_types.specs.Totals.{total};
ghost use Rattle.dex_types.specs.Trader.{Open, Trader};
ghost use Rattle.dex_orders.specs.OrdersAccount.{IsOpen, IsOrders, account_of};
ghost use Rattle.dex_orders.specs.StandsFor.{trader_of};
ghost use Rattle.dex_totals.specs.Reading.{AreOrders, traders};
ghost use Rattle.dex_totals.specs.Sums.{amount_of, capped};

use crate::tokens::Token;
use crate::traders::opened;
use dex_orders::OrdersRef;
use dex_types::OrdersAccount;

/// An amount of an open account, in native units.
#[derive(Clone, Copy, Debug, PartialEq, Eq)]
pub enum Amount {
    Free(Token),
    Referrer,
}

/// The amount of a trader; a blank or closed account has none.
fn amount_in(amount: Amount, bytes: &[u8]) -> u64
    requires { IsOrders bytes.now }
    ensures value { result ≡ amount_of amount (trader_of bytes.now) }
    ensures small { result < 2 ^ 64 }
{
    match opened(bytes) {
        Some(view) => amount_of(amount, view),
        None => 0,
    }
}

fn amount_of(amount: Amount, view: OrdersRef<'_>) -> u64
    requires { IsOpen view.bytes.now }
    ensures { result ≡ amount_of amount (Open (account_of view.entry.bytes.now)) }
{
    let funds = view.funds();
    match amount {
        Amount::Free(Token::Coin) => funds.coin_free,
        Amount::Free(Token::Pc) => funds.pc_free,
        Amount::Referrer => funds.referrer,
    }
}

/// The amounts of all traders together.
pub fn sum_amounts(accounts: &[OrdersAccount], amount: Amount) -> u128
    requires { AreOrders accounts.now }
    ensures { result
        ≡ capped (total (λ (entry : Address × Trader). amount_of amount entry.1) (traders accounts.now)) }
{
    let mut sum: u128 = 0;
    for account in accounts {
        let more = amount_in(amount, &account.bytes);
        sum = sum.saturating_add(u128::from(more));
    }
    sum
}
