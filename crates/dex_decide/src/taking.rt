//! Whether a take is refused. Each function reads only.

ghost use Rattle.std.specs.Prelude.{◌≡◌};
ghost use Rattle.dex_types.specs.Reasons as each;
ghost use Rattle.dex_types.specs.Why as reasons;
ghost use Rattle.dex_ring.specs.PendingFills.{pending_fills_of};
ghost use Rattle.dex_take.specs.TakeGiven.{read_of};
ghost use Rattle.dex_take.specs.TakeTerms.{take_of};
ghost use Rattle.dex_take.specs.Taking.{take_outcome};
ghost use Rattle.dex_accounts.specs.Decoded.{AreSound, market_in};
ghost use Rattle.dex_plan.specs.Given.{asked_by, take_given_on};
ghost use Rattle.dex_plan.specs.Plans.{take_answer};

use crate::ordering::{payer_seen, side_of};
use dex_fills::PendingFills;
use dex_lent::ReadMarket;
use dex_market::MarketRef;
use dex_match::Taker;
use dex_plan::{Ask, Plan};
use dex_reasons::{disabled, missing, not_signed, other_discount_mint, other_mint};
use dex_ring::RingRef;
use dex_take::{DecidedTake, LeastFill, decide_take_with_pending, gathered};
use dex_types::{Refusal, Seen, Side};

/// The market is disabled.
pub fn is_disabled<M: ReadMarket>(accounts: &M) -> Option<Refusal>
    requires { AreSound (M.held accounts.now) }
    ensures { result ≡ each.disabled (market_in (M.held accounts.now)) }
{
    let market = MarketRef {
        bytes: accounts.market(),
    };
    disabled(market.account_flags())
}

/// The first reason that asks for the market's flags, for wallets and for the signer.
#[inline(never)]
fn wallet_reason<M: ReadMarket>(
    accounts: &M,
    ask: &Ask<'_>,
    seen: &Seen,
    side: Side,
) -> Option<Refusal>
    requires { AreSound (M.held accounts.now) }
    ensures { result ≡ reasons.why_take_early side (asked_by ask.entry.now) seen.now (market_in (M.held accounts.now)) }
{
    let market = MarketRef {
        bytes: accounts.market(),
    };
    is_disabled(accounts)
        .or(missing(seen.coin))
        .or(missing(seen.pc))
        .or(other_mint(market.coin_mint(), seen.coin))
        .or(other_mint(market.pc_mint(), seen.pc))
        .or(other_discount_mint(seen, seen.discount))
        .or(not_signed(ask.signer, *payer_seen(side, seen)))
        .or(not_signed(ask.signer, seen.discount))
}

/// What the take does, or why it is refused, apart from the market's flags, wallets and the signer.
fn decide_take_with<M: ReadMarket>(
    accounts: &M,
    taker: Taker,
    least: LeastFill,
    seen: &Seen,
    pending: &PendingFills,
) -> Result<DecidedTake, Refusal>
    requires sound { AreSound (M.held accounts.now) }
    requires pending { pending.now ≡ pending_fills_of (market_in (M.held accounts.now)).events }
    ensures { result ≡ take_outcome taker.id_side (take_of taker least.lots least.pc)
        (read_of (take_given_on taker.id_side (M.held accounts.now))) seen.now }
{
    let market = MarketRef {
        bytes: accounts.market(),
    };
    let ring = RingRef {
        bytes: accounts.events(),
    };
    let opposite = side_of(accounts, taker.id_side.opposite());
    let input = gathered(market, &opposite, ring, seen);
    decide_take_with_pending(&input, &taker, least, pending)
}

/// A take.
#[inline(never)]
pub fn decide_take_row<M: ReadMarket>(
    accounts: &M,
    ask: &Ask<'_>,
    seen: &Seen,
    taker: Taker,
    least: LeastFill,
    pending: &PendingFills,
) -> Result<Plan, Refusal>
    requires sound { AreSound (M.held accounts.now) }
    requires pending { pending.now ≡ pending_fills_of (market_in (M.held accounts.now)).events }
    ensures { result ≡ take_answer taker (take_of taker least.lots least.pc) (asked_by ask.entry.now)
        seen.now (market_in (M.held accounts.now)) }
{
    if let Some(why) = wallet_reason(accounts, ask, seen, taker.id_side) {
        return Err(why);
    }
    match decide_take_with(accounts, taker, least, seen, pending) {
        Ok(decided) => Ok(Plan::Take {
            taker,
            plan: decided.plan,
            pending: decided.pending,
        }),
        Err(why) => Err(why),
    }
}
