//! What a new order brings to its market, written into the market's words.

ghost use Rattle.std.specs.Prelude.{◌≡◌, ◌+◌, ◌≤◌};
ghost use Rattle.dex_market.specs.MarketAccount.{IsMarket, market_words};
ghost use Rattle.dex_match.specs.Applying as applying;
ghost use Rattle.dex_types.specs.Fees as fees;

use crate::order_plan::OrderPlan;
use dex_fees::referrer_part;
use dex_market::{MarketFunds, MarketView};
use dex_types::Side;

/// What a new order brings to its market, in native amounts: coin and pc into the vaults, and of the taker's fee, in
/// pc, what the market keeps and the referrer's part.
#[derive(Clone, Copy)]
pub struct Intake {
    pub coin: u64,
    pub pc: u64,
    pub fees: u64,
    pub referrer: u64,
}

/// What a plan brings to its market, where the makers get these rebates of its fee: a bid's deposit is pc, an ask's
/// coin.
pub(crate) fn intake_by(side: Side, plan: &OrderPlan, rebates: u64) -> Intake
    requires { fees.referrer_part plan.now.fee + rebates ≤ plan.now.fee }
    ensures { result ≡ applying.intake_by side plan.now.deposit plan.now.fee rebates }
{
    let referrer = referrer_part(plan.fee);
    let fees = plan.fee - referrer - rebates;
    match side {
        Side::Bid => Intake {
            coin: 0,
            pc: plan.deposit,
            fees,
            referrer,
        },
        Side::Ask => Intake {
            coin: plan.deposit,
            pc: 0,
            fees,
            referrer,
        },
    }
}

/// Adds the deposit to the deposits, and takes what is earned of the fee off them.
pub(crate) fn take_in(intake: Intake, market: &mut MarketView<'_>)
    requires accepted { IsMarket market.old.bytes.now }
    requires can_take_in { applying.CanTakeIn intake (market_words market.old.bytes.now) }
    ensures place { market.new.bytes.ghost_name ≡ market.old.bytes.ghost_name }
    ensures bytes { market.new.bytes.now ≡ applying.bytes_with intake market.old.bytes.now }
    ensures words { market_words market.new.bytes.now
        ≡ applying.words_with intake (market_words market.old.bytes.now) }
    ensures accepted { IsMarket market.new.bytes.now }
{
    let funds = MarketFunds {
        coin_deposits: market.coin_deposits_total() + intake.coin,
        pc_deposits: market.pc_deposits_total() + intake.pc - (intake.fees + intake.referrer),
        pc_fees: market.pc_fees_accrued() + intake.fees,
        referrer_rebates: market.referrer_rebates_accrued() + intake.referrer,
    };
    market.set_funds(funds);
}
