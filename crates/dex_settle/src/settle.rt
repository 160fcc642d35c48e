//! Settling: all free funds of an account are paid out, with its referrer part.

ghost use Rattle.std.specs.Prelude.{◌≡◌, ◌+◌, ◌^◌, ◌<◌};
ghost use Rattle.dex_types.specs.declared.addresses.Address.{Address};
ghost use Rattle.dex_types.specs.Reasons.{first_of};
ghost use Rattle.dex_types.specs.Settle as settling;
ghost use Rattle.dex_types.specs.Wallets.{brought_to};
ghost use Rattle.dex_accounts.specs.Keeps.{KeepsMarket, KeepsOpen};
ghost use Rattle.dex_market.specs.MarketAccount.{IsMarket, market_words};
ghost use Rattle.dex_orders.specs.OrdersAccount.{IsOpen, account_of, funded};
ghost use Rattle.dex_settle.specs.PayingOut as paying_out;
ghost use Rattle.dex_settle.specs.SettleGiven.{HasOneCoinMint, IsOfSound, handed, shown};
ghost use Rattle.dex_settle.specs.Refusing as refusing;

use crate::plan::SettlePlan;
use dex_market::{MarketFunds, MarketRef, MarketView};
use dex_orders::{Funds, OrdersRef, OrdersView};
use dex_reasons::{Payout, missing, not_owner, other_mint, too_full};
use dex_types::{Address, Refusal, Seen};

fn plan_of(orders: &OrdersRef<'_>, has_referrer: bool) -> SettlePlan
    requires { IsOpen orders.now.bytes.now }
    ensures plan { result ≡ paying_out.plan_of (settling.settlement has_referrer (account_of orders.now.bytes.now)) }
    ensures out { paying_out.PaysOut result (account_of orders.now.bytes.now) }
{
    let funds = orders.funds();
    SettlePlan {
        coin: funds.coin_free,
        pc: funds.pc_free,
        referrer: if has_referrer { funds.referrer } else { 0 },
        to_fees: if has_referrer { 0 } else { funds.referrer },
    }
}

/// The first reason that asks for the wallets, the signer or the wallets' mints.
fn early_reason(
    market: &MarketRef<'_>,
    orders: &OrdersRef<'_>,
    signer: Address,
    seen: &Seen,
) -> Option<Refusal>
    requires market { IsMarket market.now.bytes.now }
    requires account { IsOpen orders.now.bytes.now }
    ensures { result ≡ first_of (refusing.early_settle_reasons
        (market_words market.now.bytes.now).terms signer seen.now (account_of orders.now.bytes.now)) }
{
    missing(seen.coin)
        .or(missing(seen.pc))
        .or(not_owner(orders.owner(), signer))
        .or(other_mint(market.coin_mint(), seen.coin))
        .or(other_mint(market.pc_mint(), seen.pc))
        .or(other_mint(market.pc_mint(), seen.referrer))
}

/// The first reason that asks for the wallets' balances.
fn full_reason(seen: &Seen, plan: &SettlePlan) -> Option<Refusal>
    requires { (address : Address) → brought_to seen.now (paying_out.transfers_by plan.now) address < 2 ^ 64 }
    ensures { result ≡ first_of (refusing.full_reasons seen.now (paying_out.transfers_by plan.now)) }
{
    let paid = Payout {
        coin: plan.coin,
        pc: plan.pc,
        referrer: plan.referrer,
    };
    too_full(seen, paid, seen.coin)
        .or(too_full(seen, paid, seen.pc))
        .or(too_full(seen, paid, seen.referrer))
}

/// The plan or the refusal, where what the account is paid of pc fits a balance's field.
pub(crate) fn decide(
    market: &MarketRef<'_>,
    orders: &OrdersRef<'_>,
    signer: Address,
    seen: &Seen,
) -> Result<SettlePlan, Refusal>
    requires market { IsMarket market.now.bytes.now }
    requires account { IsOpen orders.now.bytes.now }
    requires fits { (account_of orders.now.bytes.now).pc.free + (account_of orders.now.bytes.now).referrer < 2 ^ 64 }
    requires wallets { HasOneCoinMint seen.now }
    ensures { result ≡ refusing.settle_answer (market_words market.now.bytes.now).terms signer seen.now
        (account_of orders.now.bytes.now) }
{
    if let Some(why) = early_reason(market, orders, signer, seen) {
        return Err(why);
    }
    let plan = plan_of(orders, seen.referrer.is_some());
    match full_reason(seen, &plan) {
        Some(why) => Err(why),
        None => Ok(plan),
    }
}

/// What settling the account pays, or why it is refused. It reads only.
///
/// Refused are, in this order: a row that names no coin or no pc wallet; a signer who is not the account's owner; a
/// coin, pc or referrer wallet of another mint; a coin, pc or referrer wallet whose balance would be 2^64 or more with
/// all that it gets under its roles together.
pub fn decide_settle(
    market: &MarketRef<'_>,
    orders: &OrdersRef<'_>,
    signer: Address,
    seen: &Seen,
) -> Result<SettlePlan, Refusal>
    requires market { IsMarket market.now.bytes.now }
    requires account { IsOpen orders.now.bytes.now }
    requires parts { IsOfSound (shown market.now orders.now) }
    requires wallets { HasOneCoinMint seen.now }
    ensures { result ≡ refusing.settle_answer (market_words market.now.bytes.now).terms signer seen.now
        (account_of orders.now.bytes.now) }
{
    decide(market, orders, signer, seen)
}

/// Takes what is paid out from the deposits, and the referrer part from the rebates, to the fees where it stays.
pub(crate) fn pay(plan: &SettlePlan, market: &mut MarketView<'_>)
    requires accepted { IsMarket market.old.bytes.now }
    requires can_pay { paying_out.CanPay plan.now (market_words market.old.bytes.now) }
    ensures place { market.new.bytes.ghost_name ≡ market.old.bytes.ghost_name }
    ensures bytes { market.new.bytes.now ≡ paying_out.bytes_after plan.now market.old.bytes.now }
    ensures accepted { IsMarket market.new.bytes.now }
{
    let rebates = market.referrer_rebates_accrued() - (plan.referrer + plan.to_fees);
    let funds = MarketFunds {
        coin_deposits: market.coin_deposits_total() - plan.coin,
        pc_deposits: market.pc_deposits_total() - plan.pc,
        pc_fees: market.pc_fees_accrued() + plan.to_fees,
        referrer_rebates: rebates,
    };
    market.set_funds(funds);
}

/// Takes all free funds and the referrer part from the account.
pub(crate) fn pay_out(orders: &mut OrdersView<'_>)
    requires { IsOpen orders.old.bytes.now }
    ensures place { orders.new.bytes.ghost_name ≡ orders.old.bytes.ghost_name }
    ensures bytes { orders.new.bytes.now ≡ funded orders.old.bytes.now (paying_out.funds_after
        (account_of orders.old.bytes.now)) }
    ensures accepted { IsOpen orders.new.bytes.now }
{
    let funds = orders.funds();
    orders.set_funds(Funds {
        coin_free: 0,
        coin_total: funds.coin_total - funds.coin_free,
        pc_free: 0,
        pc_total: funds.pc_total - funds.pc_free,
        referrer: 0,
    });
}

/// Settles the account as it was decided: of the market account the deposits, the pc fees and the referrer rebates
/// are written, of the open-orders account the funds and the referrer part; all other bytes stay.
pub fn apply_settle(plan: &SettlePlan, market: &mut MarketView<'_>, orders: &mut OrdersView<'_>)
    requires market { IsMarket market.old.bytes.now }
    requires account { IsOpen orders.old.bytes.now }
    requires parts { IsOfSound (handed market.old orders.old) }
    requires decided { paying_out.PaysOut plan.now (account_of orders.old.bytes.now) }
    ensures does { handed market.new orders.new ≡ paying_out.settled plan.now (handed market.old orders.old) }
    ensures account { KeepsMarket market.old market.new }
    ensures orders { KeepsOpen orders.old orders.new }
{
    pay(plan, market);
    pay_out(orders);
}
