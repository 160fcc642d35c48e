//! What a new order or a take does to both sides and to accounts.

ghost use Rattle.std.specs.Prelude.{◌≡◌, ℕ, ◌+◌, ◌-◌, ◌*◌, ◌^◌, ◌<◌, ◌≤◌, false, map};
ghost use Rattle.std.specs.List.{All};
ghost use Rattle.dex_eager.specs.Eager as eager;
ghost use Rattle.dex_eager.specs.Slots.{maker_fills};
ghost use Rattle.dex_match.specs.OrderTerms.{meeting_with, order_of};
ghost use Rattle.dex_fills.specs.Taker.{demand, met_by};
ghost use Rattle.dex_take.specs.TakeTerms.{meeting_with as take_met, take_of};
ghost use Rattle.dex_types.specs.NewOrder as orders;
ghost use Rattle.dex_types.specs.Side as book;
ghost use Rattle.dex_types.specs.Take as takes;
ghost use Rattle.dex_eager_market.specs.Accounts.{Grows, IsSmall, IsWithin, entry_of};
ghost use Rattle.dex_eager_market.specs.Foreseen.{IsForeseen, IsModest};
ghost use Rattle.dex_eager_market.specs.States.{IsBook, IsTill, StaysBook, TillGrows, market_by};
ghost use Rattle.dex_eager_market.specs.Trading as trading;
ghost use Rattle.dex_eager_market.specs.declared.states.Book.{Book as BookOf};

use crate::accounts::{Account, Change, add, traded};
use crate::book_list::{post, take_front};
use crate::foreseeing::{ListProspect, foresee};
use crate::paying::pay_makers;
use crate::states::{Book, Till};
use dex_fees::{taker_fee, tier_number};
use dex_fills::prices::id_of;
use dex_fills::resting::{affordable, can_rest};
use dex_fills::{MeetingTerms, Want};
use dex_match::{Taker, terms_of, want_of};
use dex_take::take_terms;
use dex_types::{Lots, Order, Side};

/// The least amount that 64 bits do not hold.
const TOO_LARGE: u128 = 0x1_0000_0000_0000_0000;

/// The base of an ask is 2^64 or more.
fn base_too_large(side: Side, sizes: Lots, lots: u64) -> bool
    ensures { result ≡ trading.base_too_large side sizes lots }
{
    match side {
        Side::Bid => false,
        Side::Ask => u128::from(lots) * u128::from(sizes.coin) >= TOO_LARGE,
    }
}

/// The quote that an ask trades is 2^64 or more.
fn quote_too_large(side: Side, pc: u128) -> bool
    ensures { result ≡ trading.quote_too_large side pc }
{
    match side {
        Side::Bid => false,
        Side::Ask => pc >= TOO_LARGE,
    }
}

/// An amount that 64 bits hold.
fn narrow(amount: u128) -> u64
    requires { amount < 2 ^ 64 }
    ensures { result ≡ amount }
{
    amount as u64
}

/// Pays the makers that a taker meets, and takes off the opposite side what it met, as it was foreseen.
fn meet_book(
    side: Side,
    taker: MeetingTerms,
    want: Want,
    foreseen: &ListProspect,
    opposing: &mut Book,
    accounts: &mut Vec<Account>,
)
    requires modest { IsModest side taker.sizes (demand want) }
    requires book { IsBook (book.opposite side) taker.sizes opposing.old }
    requires accounts { All (IsWithin (2 ^ 125)) accounts.old.items }
    requires foreseen { IsForeseen side taker.sizes taker.limit_price opposing.old.orders.items
        (met_by side taker want opposing.old.orders.items) foreseen.now }
    ensures left { opposing.new.orders.items ≡ (met_by side taker want opposing.old.orders.items).left }
    ensures book { IsBook (book.opposite side) taker.sizes opposing.new }
    ensures room { opposing.new.room ≡ opposing.old.room }
    ensures worths { map entry_of accounts.new.items ≡ eager.with_fills
        (maker_fills (met_by side taker want opposing.old.orders.items).events) (map entry_of accounts.old.items) }
    ensures within { Grows (2 ^ 81) accounts.old.items accounts.new.items }
{
    pay_makers(accounts, side, taker, want, &opposing.orders);
    take_front(&mut opposing.orders, foreseen.gone, foreseen.part);
}

/// What a taker gets and pays for its fills.
fn taker_change(side: Side, base: u128, pc: u64, fee: u64) -> Change
    requires { base < 2 ^ 81 }
    ensures value { result ≡ trading.taker_change side base pc fee }
    ensures small { IsSmall (2 ^ 81) result }
{
    let pc = u128::from(pc);
    let fee = u128::from(fee);
    match side {
        Side::Bid => traded(Side::Bid, base, pc + fee),
        Side::Ask => traded(Side::Ask, base, pc.saturating_sub(fee)),
    }
}

/// What fills with the fee leave of the lock of a bid; of an ask it decides nothing.
fn lock_left(taker: Taker, pc: u64, fee: u64) -> u64
    ensures { result ≡ taker.lock - (pc + fee) }
{
    u128::from(taker.lock).saturating_sub(u128::from(pc) + u128::from(fee)) as u64
}

/// The lots that rest of a new order.
fn rested_of(sizes: Lots, taker: Taker, foreseen: &ListProspect, pc: u64, fee: u64) -> u64
    ensures { result ≡ trading.rested_by taker.id_side sizes taker.order_type taker.price foreseen.now.crosses
        foreseen.now.want.lots (taker.lock - (pc + fee)) }
{
    if !can_rest(taker.order_type) || foreseen.crosses {
        return 0;
    }
    affordable(
        taker.id_side,
        sizes,
        taker.price,
        foreseen.want.lots,
        lock_left(taker, pc, fee),
    )
}

/// A new order as it rests, with these lots, in slot 0.
fn resting_order(taker: Taker, sequence: u64, lots: u64) -> Order
    ensures { result ≡ orders.resting taker.id_side sequence 0 (order_of taker) lots }
{
    Order {
        id: id_of(taker.id_side, taker.price, sequence),
        owner: taker.account,
        slot: 0,
        tier: tier_number(taker.tier),
        lots,
        client: taker.client,
    }
}

/// Adds the fee less the makers' rebates to what the market took.
fn charge(takings: &mut u128, fee: u64, rebates: u128)
    requires { takings.old ≤ 2 ^ 126 }
    ensures { takings.new ≡ takings.old + (fee - rebates) }
{
    *takings += u128::from(fee).saturating_sub(rebates);
}

/// Something that was foreseen, or the next sequence number, stops a new order of the side.
fn stops(side: Side, foreseen: &ListProspect, next: u64) -> bool
    ensures { result ≡ trading.stops side foreseen.now.sums.pc next foreseen.now.aborts }
{
    if quote_too_large(side, foreseen.sums.pc) {
        return true;
    }
    next == u64::MAX || foreseen.aborts
}

/// Does a new order as it was foreseen: the makers are paid, what it met leaves the book, what is left of it rests, its
/// trader gets and pays, and the market takes the fee less the rebates.
fn settle_order(
    sizes: Lots,
    taker: Taker,
    foreseen: &ListProspect,
    own: &mut Book,
    opposing: &mut Book,
    till: &mut Till,
)
    requires trade { trading.IsTrade sizes taker opposing.old.orders.items
        (meeting_with sizes taker opposing.old.orders.items) foreseen.now }
    requires next { till.old.next_sequence < 2 ^ 64 - 1 }
    requires own { IsBook taker.id_side sizes own.old }
    requires opposing { IsBook (book.opposite taker.id_side) sizes opposing.old }
    requires till { IsTill (2 ^ 124) till.old }
    ensures market { market_by taker.id_side sizes own.new opposing.new till.new
        ≡ eager.after_new_order taker.id_side (order_of taker) (meeting_with sizes taker opposing.old.orders.items)
        (market_by taker.id_side sizes own.old opposing.old till.old) }
    ensures own { StaysBook taker.id_side sizes own.old own.new }
    ensures opposing { StaysBook (book.opposite taker.id_side) sizes opposing.old opposing.new }
    ensures till { TillGrows (2 ^ 82) till.old till.new }
{
    let side = taker.id_side;
    let pc = narrow(foreseen.sums.pc);
    let fee = taker_fee(taker.program, taker.tier, pc);
    let terms = terms_of(sizes, taker);
    let want = want_of(sizes, taker);
    meet_book(side, terms, want, foreseen, opposing, &mut till.accounts);
    let rested = rested_of(sizes, taker, foreseen, pc, fee);
    let order = resting_order(taker, till.next_sequence, rested);
    post(side, own.room, order, &mut own.orders);
    let change = taker_change(side, foreseen.sums.base, pc, fee);
    add(&mut till.accounts, taker.account, change);
    charge(&mut till.takings, fee, foreseen.sums.rebates);
    till.next_sequence += 1;
}

/// What a new order would meet, unless it changes nothing: it is too large, has no sequence number, or would have to
/// abort.
fn foresee_order(sizes: Lots, taker: Taker, next: u64, opposing: &Book) -> Option<ListProspect>
    requires { IsBook (book.opposite taker.id_side) sizes opposing.now }
    ensures { trading.IsOrderForeseen sizes taker next opposing.now.orders.items result }
{
    let side = taker.id_side;
    if base_too_large(side, sizes, taker.lots) {
        return None;
    }
    let terms = terms_of(sizes, taker);
    let foreseen = foresee(side, terms, want_of(sizes, taker), &opposing.orders);
    if stops(side, &foreseen, next) {
        return None;
    }
    Some(foreseen)
}

/// A new order of an account; `own` is its side of the book.
pub fn order_in(sizes: Lots, taker: Taker, own: &mut Book, opposing: &mut Book, till: &mut Till)
    requires own { IsBook taker.id_side sizes own.old }
    requires opposing { IsBook (book.opposite taker.id_side) sizes opposing.old }
    requires till { IsTill (2 ^ 124) till.old }
    ensures market { market_by taker.id_side sizes own.new opposing.new till.new
        ≡ (eager.order_by taker.id_side (order_of taker) (meeting_with sizes taker opposing.old.orders.items)
        (market_by taker.id_side sizes own.old opposing.old till.old)).market }
    ensures own { StaysBook taker.id_side sizes own.old own.new }
    ensures opposing { StaysBook (book.opposite taker.id_side) sizes opposing.old opposing.new }
    ensures till { TillGrows (2 ^ 82) till.old till.new }
{
    if let Some(foreseen) = foresee_order(sizes, taker, till.next_sequence, opposing) {
        settle_order(sizes, taker, &foreseen, own, opposing, till);
    }
}

/// What a take would meet, unless it is too large.
fn foresee_take(sizes: Lots, taker: Taker, opposing: &Book) -> Option<ListProspect>
    requires { IsBook (book.opposite taker.id_side) sizes opposing.now }
    ensures { trading.IsTakeForeseen sizes taker opposing.now.orders.items result }
{
    let side = taker.id_side;
    if base_too_large(side, sizes, taker.lots) {
        return None;
    }
    let terms = take_terms(sizes, taker);
    let foreseen = foresee(side, terms, want_of(sizes, taker), &opposing.orders);
    if quote_too_large(side, foreseen.sums.pc) {
        return None;
    }
    Some(foreseen)
}

/// Does a take as it was foreseen: the makers are paid, and the market takes the fee less the rebates.
fn settle_take(
    sizes: Lots,
    taker: Taker,
    foreseen: &ListProspect,
    opposing: &mut Book,
    till: &mut Till,
)
    requires trade { trading.IsTrade sizes taker opposing.old.orders.items
        (take_met sizes taker opposing.old.orders.items) foreseen.now }
    requires opposing { IsBook (book.opposite taker.id_side) sizes opposing.old }
    requires till { IsTill (2 ^ 124) till.old }
    ensures market { (own : BookOf) → market_by taker.id_side sizes own opposing.new till.new
        ≡ eager.after_meeting taker.id_side (take_met sizes taker opposing.old.orders.items)
        (takes.take_fee (take_of taker 0 0) (take_met sizes taker opposing.old.orders.items))
        (market_by taker.id_side sizes own opposing.old till.old) }
    ensures opposing { StaysBook (book.opposite taker.id_side) sizes opposing.old opposing.new }
    ensures till { TillGrows (2 ^ 82) till.old till.new }
{
    let side = taker.id_side;
    let fee = taker_fee(taker.program, taker.tier, narrow(foreseen.sums.pc));
    let terms = take_terms(sizes, taker);
    let want = want_of(sizes, taker);
    meet_book(side, terms, want, foreseen, opposing, &mut till.accounts);
    charge(&mut till.takings, fee, foreseen.sums.rebates);
}

/// A take. The taker has no account.
pub fn take_in(sizes: Lots, taker: Taker, opposing: &mut Book, till: &mut Till)
    requires opposing { IsBook (book.opposite taker.id_side) sizes opposing.old }
    requires till { IsTill (2 ^ 124) till.old }
    ensures market { (own : BookOf) (min_lots min_pc : ℕ) → market_by taker.id_side sizes own opposing.new till.new
        ≡ (eager.take_by taker.id_side (take_of taker min_lots min_pc)
        (takes.take_meeting taker.id_side sizes (take_of taker min_lots min_pc) opposing.old.orders.items)
        (market_by taker.id_side sizes own opposing.old till.old)).market }
    ensures opposing { StaysBook (book.opposite taker.id_side) sizes opposing.old opposing.new }
    ensures till { TillGrows (2 ^ 82) till.old till.new }
{
    if let Some(foreseen) = foresee_take(sizes, taker, opposing) {
        settle_take(sizes, taker, &foreseen, opposing, till);
    }
}
