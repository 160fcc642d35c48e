//! A take that was accepted is done.

ghost use Rattle.std.specs.Prelude.{◌≡◌, ◌<◌, ◌^◌};
ghost use Rattle.dex_accounts.specs.Keeps.{KeepsEvents, KeepsMarket, KeepsSide};
ghost use Rattle.dex_market.specs.MarketAccount.{IsMarket, market_words};
ghost use Rattle.dex_ring.specs.Appended.{appended};
ghost use Rattle.dex_ring.specs.Ring.{IsEventQueue, ring_of};
ghost use Rattle.dex_take.specs.Exchanging as exchanging;
ghost use Rattle.dex_take.specs.TakeGiven.{IsOfSound, handed, read_of};
ghost use Rattle.dex_take.specs.Taken.{met_in, reply_in, taken};
ghost use Rattle.dex_take.specs.Taking.{IsDecided};

use crate::plan::{Exchange, TakePlan, exchange_of};
use crate::terms::{take_terms, want_of};
use dex_fills::meet_side;
use dex_market::{MarketFunds, MarketView};
use dex_match::{Taker, amounts_fit};
use dex_ring::RingView;
use dex_types::{Reply, SideBook};

/// Takes in and pays out what a take moves, and keeps so much quote for the market's fees.
fn pay(market: &mut MarketView<'_>, moved: Exchange, kept: u64)
    requires accepted { IsMarket market.old.bytes.now }
    requires can { exchanging.CanExchange (exchanging.moves moved) kept (market_words market.old.bytes.now) }
    ensures place { market.new.bytes.ghost_name ≡ market.old.bytes.ghost_name }
    ensures bytes { market.new.bytes.now ≡ exchanging.bytes_after (exchanging.moves moved) kept market.old.bytes.now }
    ensures accepted { IsMarket market.new.bytes.now }
{
    let funds = MarketFunds {
        coin_deposits: market.coin_deposits_total() + moved.coin_in - moved.coin_out,
        pc_deposits: market.pc_deposits_total() + moved.pc_in - (moved.pc_out + kept),
        pc_fees: market.pc_fees_accrued() + kept,
        referrer_rebates: market.referrer_rebates_accrued(),
    };
    market.set_funds(funds);
}

/// Does a take as it was decided, and answers what it filled. The orders that it meets leave the book or lose lots,
/// their events are appended to the queue; of the market account the deposits and the pc fees are written, which keep
/// the fee less the makers' rebates; all other bytes of that account stay.
pub fn apply_take<B: SideBook>(
    plan: &TakePlan,
    taker: &Taker,
    market: &mut MarketView<'_>,
    opposite: &mut B,
    ring: &mut RingView<'_>,
) -> Reply
    requires holds { B.holds opposite.old }
    requires parts { IsOfSound taker.now.id_side (handed B.orders market.old opposite.old ring.old) }
    requires decided { IsDecided plan.now taker.now (read_of (handed B.orders market.old opposite.old ring.old)) }
    ensures reply { result ≡ reply_in taker.entry.now (handed B.orders market.old opposite.old ring.old) }
    ensures does { handed B.orders market.new opposite.new ring.new
        ≡ taken taker.entry.now (handed B.orders market.old opposite.old ring.old) }
    ensures list { let before = handed B.orders market.old opposite.old ring.old in
        ring_of ring.new.bytes.now ≡ appended (met_in taker.entry.now before).events (ring_of before.events) }
    ensures account { KeepsMarket market.old market.new }
    ensures queue { KeepsEvents ring.old ring.new }
    ensures side { KeepsSide B.holds B.same_place B.side B.room opposite.old opposite.new }
{
    let taker = *taker;
    amounts_fit(taker);
    let sizes = market.sizes();
    let side = taker.id_side;
    let terms = take_terms(sizes, taker);
    let want = want_of(sizes, taker);
    let met = meet_side(side, terms, want, opposite, ring);
    pay(market, exchange_of(side, plan), plan.fee - met.sums.rebates);
    Reply::Took {
        lots: plan.lots,
        pc: plan.pc,
        fee: plan.fee,
    }
}
