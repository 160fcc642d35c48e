//! Whether a new order is refused. Each function reads only.

ghost use Rattle.std.specs.Prelude.{◌≡◌};
ghost use Rattle.dex_types.specs.Reasons as each;
ghost use Rattle.dex_types.specs.Terms.{tier_seen};
ghost use Rattle.dex_types.specs.Why as reasons;
ghost use Rattle.dex_match.specs.LentParts.{outcome_in};
ghost use Rattle.dex_match.specs.OrderTerms.{order_of};
ghost use Rattle.dex_orders.specs.OrdersAccount.{IsOpen, account_of};
ghost use Rattle.dex_ring.specs.PendingFills.{pending_fills_of};
ghost use Rattle.dex_accounts.specs.Decoded.{AreSound, market_in};
ghost use Rattle.dex_plan.specs.Given.{asked_by, bytes_on, given_on};
ghost use Rattle.dex_decide.specs.Named.{IsActing, party_by};
ghost use Rattle.dex_plan.specs.Plans.{order_answer, order_by, order_planned};

use crate::named::{Acting, open_named};
use crate::taking::is_disabled;
use dex_fills::PendingFills;
use dex_lent::ReadMarket;
use dex_market::{MarketRef, RequestRef};
use dex_match::{Decided, Taker, decide_order_with_pending, gathered};
use dex_orders::OrdersRef;
use dex_plan::{Ask, Plan};
use dex_reasons::{is_mint, missing, not_owner, not_signed, other_discount_mint, other_mint};
use dex_ring::RingRef;
use dex_slab::SlabRef;
use dex_types::{Address, Refusal, Seen, Side, Tier, WalletSeen};

/// The tier that a row reaches by its discount wallet.
pub fn tier_seen(seen: &Seen) -> Tier
    ensures { result ≡ tier_seen seen.now }
{
    match seen.discount {
        None => Tier::Base,
        Some(wallet) => dex_fees::tier_of(is_mint(seen.msrm, wallet.mint), wallet.balance),
    }
}

/// A side of the book, for reading.
pub fn side_of<M: ReadMarket>(accounts: &M, side: Side) -> SlabRef<'_>
    ensures bytes { result.bytes.now ≡ bytes_on side (M.held accounts.now) }
    ensures side { result.side ≡ side }
{
    match side {
        Side::Bid => SlabRef {
            bytes: accounts.bids(),
            side,
        },
        Side::Ask => SlabRef {
            bytes: accounts.asks(),
            side,
        },
    }
}

/// The wallet that pays for an order or a take of the side, lent from what the row sees.
#[inline(never)]
pub fn payer_seen(side: Side, seen: &Seen) -> &Option<WalletSeen>
    ensures { result.now ≡ reasons.payer side seen.now }
{
    match side {
        Side::Bid => &seen.pc,
        Side::Ask => &seen.coin,
    }
}

/// The mint of what an order of the side pays with.
#[inline(never)]
fn payer_mint<M: ReadMarket>(accounts: &M, side: Side) -> Address
    requires { AreSound (M.held accounts.now) }
    ensures { result ≡ reasons.payer_mint side (market_in (M.held accounts.now)) }
{
    let market = MarketRef {
        bytes: accounts.market(),
    };
    match side {
        Side::Bid => market.pc_mint(),
        Side::Ask => market.coin_mint(),
    }
}

/// The first reason that asks for wallets and for the signer.
#[inline(never)]
fn wallet_reason<M: ReadMarket>(
    accounts: &M,
    ask: &Ask<'_>,
    seen: &Seen,
    acting: Acting<'_>,
    side: Side,
) -> Option<Refusal>
    requires sound { AreSound (M.held accounts.now) }
    requires open { IsOpen acting.bytes.now }
    ensures { result ≡ reasons.why_order_early side (asked_by ask.entry.now) seen.now (market_in (M.held accounts.now))
        (party_by acting.entry.address acting.entry.bytes.now) }
{
    let orders = OrdersRef {
        bytes: acting.bytes,
    };
    let paying = payer_seen(side, seen);
    if let Some(why) = missing(*paying) {
        return Some(why);
    }
    if let Some(why) = not_owner(orders.owner(), ask.signer) {
        return Some(why);
    }
    if let Some(why) = other_mint(payer_mint(accounts, side), *paying) {
        return Some(why);
    }
    if let Some(why) = discount_mint_reason(seen) {
        return Some(why);
    }
    if let Some(why) = not_signed(ask.signer, *paying) {
        return Some(why);
    }
    not_signed(ask.signer, seen.discount)
}

/// Why the discount wallet, where one is named, is of another mint.
fn discount_mint_reason(seen: &Seen) -> Option<Refusal>
    ensures { result ≡ each.other_discount_mint seen.now seen.now.discount }
{
    match seen.discount {
        None => None,
        Some(_) => other_discount_mint(seen, seen.discount),
    }
}

/// What the order does, or why it is refused, apart from wallets and the signer.
fn decide_order_with<M: ReadMarket>(
    accounts: &M,
    ask: &Ask<'_>,
    acting: Acting<'_>,
    taker: &Taker,
    balance: u64,
    pending: &PendingFills,
) -> Result<Decided, Refusal>
    requires sound { AreSound (M.held accounts.now) }
    requires acting { IsActing ask.now.named.now (M.held accounts.now).orders
        acting.address acting.bytes.now }
    requires account { taker.now.account ≡ acting.address }
    requires pending { pending.now ≡ pending_fills_of (market_in (M.held accounts.now)).events }
    ensures { result ≡ outcome_in taker.entry.now
        (given_on taker.entry.now.id_side acting.entry.bytes.now (M.held accounts.now)) balance }
{
    let market = MarketRef {
        bytes: accounts.market(),
    };
    let requests = RequestRef {
        bytes: accounts.requests(),
    };
    let ring = RingRef {
        bytes: accounts.events(),
    };
    let orders = OrdersRef {
        bytes: acting.bytes,
    };
    let own = side_of(accounts, taker.id_side);
    let opposite = side_of(accounts, taker.id_side.opposite());
    let input = gathered(market, requests, ring, orders, &own, &opposite);
    decide_order_with_pending(&input, taker, balance, pending)
}

/// A row, and what it sees.
#[derive(Clone, Copy)]
struct Asked<'a> {
    ask: &'a Ask<'a>,
    seen: &'a Seen,
}

/// A new order of an open account.
fn decide_order_by<M: ReadMarket>(
    accounts: &M,
    asked: Asked<'_>,
    acting: Acting<'_>,
    taker: &Taker,
    pending: &PendingFills,
    answer: &mut Result<Plan, Refusal>,
)
    requires sound { AreSound (M.held accounts.now) }
    requires acting { IsActing asked.ask.now.named.now (M.held accounts.now).orders
        acting.address acting.bytes.now }
    requires account { taker.now.account ≡ acting.address }
    requires pending { pending.now ≡ pending_fills_of (market_in (M.held accounts.now)).events }
    ensures { answer.new ≡ each.answered (reasons.why_order_of taker.entry.now.id_side (order_of taker.entry.now)
        (asked_by asked.entry.ask.now) asked.entry.seen.now (market_in (M.held accounts.now))
        (party_by acting.entry.address acting.entry.bytes.now))
        (order_planned taker.entry.now.id_side (order_of taker.entry.now) (market_in (M.held accounts.now))
        (account_of acting.entry.bytes.now)) }
{
    let Some(wallet) = payer_seen(taker.id_side, asked.seen) else {
        *answer = Err(Refusal::NoAccount);
        return;
    };
    if let Some(why) = wallet_reason(accounts, asked.ask, asked.seen, acting, taker.id_side) {
        *answer = Err(why);
        return;
    }
    match decide_order_with(accounts, asked.ask, acting, taker, wallet.balance, pending) {
        Ok(decided) => {
            *answer = Ok(Plan::Order {
                taker: *taker,
                plan: decided.plan,
                pending: decided.pending,
            });
        }
        Err(why) => *answer = Err(why),
    }
}

/// A new order of the account that the row names first; the taker's own account is not looked at. The answer is written
/// where it is wanted: a plan has some 250 bytes.
#[inline(never)]
pub fn decide_order_row<M: ReadMarket>(
    accounts: &M,
    ask: &Ask<'_>,
    seen: &Seen,
    taker: Taker,
    pending: &PendingFills,
    answer: &mut Result<Plan, Refusal>,
)
    requires sound { AreSound (M.held accounts.now) }
    requires pending { pending.now ≡ pending_fills_of (market_in (M.held accounts.now)).events }
    ensures { answer.new ≡ order_answer taker.id_side (order_by taker) (asked_by ask.entry.now) seen.now
        (market_in (M.held accounts.now)) }
{
    if let Some(why) = is_disabled(accounts) {
        *answer = Err(why);
        return;
    }
    match open_named(accounts, ask.named) {
        None => *answer = Err(Refusal::NoAccount),
        Some(acting) => {
            let taker = Taker {
                account: acting.address,
                ..taker
            };
            let asked = Asked { ask, seen };
            decide_order_by(accounts, asked, acting, &taker, pending, answer);
        }
    }
}
