//! What pending events owe, are still to take, and keep in totals.

ghost use Rattle.std.specs.Prelude.{◌≡◌, ◌<◌, ◌^◌, map};
ghost use Rattle.dex_types.specs.Owed.{kept, leaving, owed, referred};
ghost use Rattle.dex_types.specs.QueuedEvent.{decoded_event};
ghost use Rattle.dex_types.specs.Totals.{total, weighed_where};
ghost use Rattle.dex_totals.specs.Held.{is_event_held};
ghost use Rattle.dex_totals.specs.Sums.{capped, token_of, weight_of};

use crate::counts::side_of;
use crate::held::is_held;
use crate::tokens::Token;
use crate::traders::Owners;
use dex_crank::{Kind, kind_of};
use dex_fees::referrer_part;
use dex_types::{Event, Side};

/// An amount of a pending event, in native units of a token; what is referred is quote.
#[derive(Clone, Copy, Debug, PartialEq, Eq)]
pub enum Weight {
    Owed(Token),
    Leaving(Token),
    Kept(Token),
    Referred,
}

fn owed(token: Token, event: &Event) -> u64
    ensures { result ≡ owed (token_of token) (decoded_event event.now) }
{
    match (kind_of(event.flags), token) {
        (Kind::MakerFill(Side::Bid), Token::Coin) => event.released,
        (Kind::MakerFill(Side::Bid), Token::Pc) => event.fee_or_rebate,
        (Kind::MakerFill(Side::Ask), Token::Coin) => 0,
        (Kind::MakerFill(Side::Ask), Token::Pc) => event.released,
        (Kind::ReleasingOut(Side::Bid), Token::Coin) => 0,
        (Kind::ReleasingOut(Side::Bid), Token::Pc) => event.released,
        (Kind::ReleasingOut(Side::Ask), Token::Coin) => event.released,
        (Kind::ReleasingOut(Side::Ask), Token::Pc) => 0,
        (Kind::TakerFill(_), _) => 0,
        (Kind::PlainOut(_), _) => 0,
    }
}

fn leaving(token: Token, event: &Event) -> u64
    ensures { result ≡ leaving (token_of token) (decoded_event event.now) }
{
    match (kind_of(event.flags), token) {
        (Kind::MakerFill(Side::Bid), Token::Coin) => 0,
        (Kind::MakerFill(Side::Bid), Token::Pc) => event.paid,
        (Kind::MakerFill(Side::Ask), Token::Coin) => event.paid,
        (Kind::MakerFill(Side::Ask), Token::Pc) => 0,
        (Kind::ReleasingOut(_), _) => 0,
        (Kind::TakerFill(_), _) => 0,
        (Kind::PlainOut(_), _) => 0,
    }
}

fn kept(token: Token, event: &Event) -> u128
    ensures value { result ≡ kept (token_of token) (decoded_event event.now) }
    ensures small { result < 2 ^ 65 }
{
    let paid = u128::from(event.paid);
    let released = u128::from(event.released);
    match (kind_of(event.flags), token) {
        (Kind::MakerFill(Side::Bid), Token::Coin) => 0,
        (Kind::MakerFill(Side::Bid), Token::Pc) => paid + u128::from(event.fee_or_rebate),
        (Kind::MakerFill(Side::Ask), Token::Coin) => paid,
        (Kind::MakerFill(Side::Ask), Token::Pc) => 0,
        (Kind::ReleasingOut(Side::Bid), Token::Coin) => 0,
        (Kind::ReleasingOut(Side::Bid), Token::Pc) => released,
        (Kind::ReleasingOut(Side::Ask), Token::Coin) => released,
        (Kind::ReleasingOut(Side::Ask), Token::Pc) => 0,
        (Kind::TakerFill(_), _) => 0,
        (Kind::PlainOut(_), _) => 0,
    }
}

fn referred(event: &Event) -> u64
    ensures { result ≡ referred (decoded_event event.now) }
{
    match kind_of(event.flags) {
        Kind::TakerFill(_) => referrer_part(event.fee_or_rebate),
        Kind::MakerFill(_) => 0,
        Kind::ReleasingOut(_) => 0,
        Kind::PlainOut(_) => 0,
    }
}

/// What the event weighs.
fn weigh(weight: Weight, event: &Event) -> u128
    ensures value { result ≡ weight_of weight (decoded_event event.now) }
    ensures small { result < 2 ^ 65 }
{
    match weight {
        Weight::Owed(token) => u128::from(owed(token, event)),
        Weight::Leaving(token) => u128::from(leaving(token, event)),
        Weight::Kept(token) => kept(token, event),
        Weight::Referred => u128::from(referred(event)),
    }
}

/// What all pending events weigh.
pub fn sum_pending(events: &[Event], weight: Weight) -> u128
    ensures { result ≡ capped (total (weight_of weight) (map decoded_event events.now)) }
{
    let mut sum: u128 = 0;
    for place in 0..events.len() {
        let more = weigh(weight, &events[place]);
        sum = sum.saturating_add(more);
    }
    sum
}

/// What an event weighs, where its slot holds it.
fn weigh_held(weight: Weight, owners: &Owners<'_>, event: &Event) -> u128
    ensures value { result
        ≡ weighed_where (is_event_held owners.now) (weight_of weight) (decoded_event event.now) }
    ensures small { result < 2 ^ 65 }
{
    if is_event_held(owners, event) {
        weigh(weight, event)
    } else {
        0
    }
}

/// Whether the event's slot holds it.
fn is_event_held(owners: &Owners<'_>, event: &Event) -> bool
    ensures { result ≡ is_event_held owners.now (decoded_event event.now) }
{
    let held = owners.held_at(event.owner, event.slot);
    let side = side_of(event);
    is_held(held, event.id, side, event.client)
}

/// What those of the events weigh whose slots hold them.
pub fn sum_held(events: &[Event], weight: Weight, owners: &Owners<'_>) -> u128
    ensures { result
        ≡ capped (total (weighed_where (is_event_held owners.now) (weight_of weight)) (map decoded_event events.now)) }
{
    let mut sum: u128 = 0;
    for place in 0..events.len() {
        let more = weigh_held(weight, owners, &events[place]);
        sum = sum.saturating_add(more);
    }
    sum
}
