//! What an event pays, in the funds of its owner's account.

ghost use Rattle.std.specs.Prelude.{◌≡◌};
ghost use Rattle.dex_types.specs.QueuedEvent as events;
ghost use Rattle.dex_crank.specs.Funds.{FitsFunds, paid_funds};

use crate::kinds::{Kind, kind_of};
use dex_fees::referrer_part;
use dex_orders::Funds;
use dex_types::{Event, Side};

/// A bid was filled: the quote that it pays leaves the total, its rebate is free, and it gets base.
fn filled_bid(event: &Event, funds: Funds) -> Funds
    requires { FitsFunds (events.MakerFill Side.Bid) (events.decoded_event event.now) funds }
    ensures { result ≡ paid_funds (events.MakerFill Side.Bid) (events.decoded_event event.now) funds }
{
    Funds {
        coin_free: funds.coin_free + event.released,
        coin_total: funds.coin_total + event.released,
        pc_free: funds.pc_free + event.fee_or_rebate,
        pc_total: funds.pc_total - event.paid,
        referrer: funds.referrer,
    }
}

/// An ask was filled: the base that it sells leaves the total, and it gets quote, its rebate with it.
fn filled_ask(event: &Event, funds: Funds) -> Funds
    requires { FitsFunds (events.MakerFill Side.Ask) (events.decoded_event event.now) funds }
    ensures { result ≡ paid_funds (events.MakerFill Side.Ask) (events.decoded_event event.now) funds }
{
    Funds {
        coin_free: funds.coin_free,
        coin_total: funds.coin_total - event.paid,
        pc_free: funds.pc_free + event.released,
        pc_total: funds.pc_total + event.released,
        referrer: funds.referrer,
    }
}

/// A new order was filled: it was paid at once, and its fee's part for a referrer is kept.
fn filled_taker(side: Side, event: &Event, funds: Funds) -> Funds
    requires { FitsFunds (events.TakerFill side) (events.decoded_event event.now) funds }
    ensures { result ≡ paid_funds (events.TakerFill side) (events.decoded_event event.now) funds }
{
    Funds {
        referrer: funds.referrer + referrer_part(event.fee_or_rebate),
        ..funds
    }
}

/// An order is gone or smaller: what that unlocks of the token that it locked is free.
fn released(side: Side, event: &Event, funds: Funds) -> Funds
    requires { FitsFunds (events.ReleasingOut side) (events.decoded_event event.now) funds }
    ensures { result ≡ paid_funds (events.ReleasingOut side) (events.decoded_event event.now) funds }
{
    match side {
        Side::Bid => Funds {
            pc_free: funds.pc_free + event.released,
            ..funds
        },
        Side::Ask => Funds {
            coin_free: funds.coin_free + event.released,
            ..funds
        },
    }
}

/// The owner's funds after the event was paid, in native amounts.
pub fn paid_funds(event: &Event, funds: Funds) -> Funds
    requires { FitsFunds (events.kind_of event.now.flags) (events.decoded_event event.now) funds }
    ensures { result ≡ paid_funds (events.kind_of event.now.flags) (events.decoded_event event.now) funds }
{
    match kind_of(event.flags) {
        Kind::MakerFill(Side::Bid) => filled_bid(event, funds),
        Kind::MakerFill(Side::Ask) => filled_ask(event, funds),
        Kind::TakerFill(side) => filled_taker(side, event, funds),
        Kind::PlainOut(_) => funds,
        Kind::ReleasingOut(side) => released(side, event, funds),
    }
}
