//! The rules of sums: totals, deposits, vaults, rebates and bounds.

ghost use Rattle.std.specs.Prelude.{◌≡◌, ℕ, ◌+◌, ◌++◌, OnOk};
ghost use Rattle.dex_types.specs.Market.{Market, orders};
ghost use Rattle.dex_types.specs.Owed.{referred};
ghost use Rattle.dex_types.specs.Side.{Coin, Pc};
ghost use Rattle.dex_types.specs.Solvency.{all_referrers, own_locked};
ghost use Rattle.dex_types.specs.Tokens.{locking_side};
ghost use Rattle.dex_types.specs.Totals.{total};
ghost use Rattle.dex_orders.specs.OrdersAccount.{IsOpen, account_of};
ghost use Rattle.dex_audit_rules.specs.Books.{IsBook, IsOf};
ghost use Rattle.dex_audit_rules.specs.Own.{IsOwnOf};
ghost use Rattle.dex_audit_rules.specs.Funds as rules;
ghost use Rattle.dex_totals.specs.Sums.{capped, token_of, weight_of};

use crate::book::Book;
use crate::finding::{Finding, tell_unless};
use crate::own::Own;
use dex_orders::OrdersRef;
use dex_totals::{Amount, Token, Weight, opened, sum_amounts, sum_held, sum_locked, sum_pending};
use dex_types::{Address, NoMemory, Order, Side};

/// Tells an amount that is not the sum that it must be.
pub fn tell_differs(
    found: &mut Vec<Finding>,
    kind: u8,
    account: Address,
    place: u32,
    amount: u64,
    sum: u128,
) -> Result<(), NoMemory>
    ensures { (exact : ℕ) → sum ≡ capped exact → OnOk result (found.new.items ≡ found.old.items
        ++ rules.differs kind account place amount exact) }
{
    let finding = Finding {
        kind,
        account,
        place,
        found: u128::from(amount),
        wanted: sum,
    };
    tell_unless(found, u128::from(amount) == sum, finding)
}

/// The orders that lock a token, and their side.
fn locking<'a>(book: &Book<'a>, token: Token) -> (&'a [Order], Side)
    ensures orders { (m : Market) → IsOf book.now m → result.0.now ≡ orders (locking_side (token_of token)) m }
    ensures side { result.1 ≡ locking_side (token_of token) }
{
    match token {
        Token::Coin => (book.asks, Side::Ask),
        Token::Pc => (book.bids, Side::Bid),
    }
}

/// What an owner's orders lock of a token.
fn locked_of(own: &Own<'_>, token: Token, owner: Address) -> u128
    ensures { (m : Market) → IsOwnOf own.now m → result ≡ capped (own_locked (token_of token) owner m) }
{
    match token {
        Token::Coin => sum_locked(own.asks.of(owner), Side::Ask, own.book.sizes),
        Token::Pc => sum_locked(own.bids.of(owner), Side::Bid, own.book.sizes),
    }
}

/// What of a token an owner's events keep in its total, where its slots hold them.
fn kept_of(own: &Own<'_>, token: Token, owner: Address) -> u128
    ensures { (m : Market) → IsOwnOf own.now m → result ≡ capped (rules.held_kept (token_of token) owner m) }
{
    sum_held(own.events.of(owner), Weight::Kept(token), &own.owners)
}

/// What an open account's total of a token must be.
fn total_of(own: &Own<'_>, token: Token, owner: Address, free: u64) -> u128
    ensures { (m : Market) → IsOwnOf own.now m → result
        ≡ capped (free + own_locked (token_of token) owner m + rules.held_kept (token_of token) owner m) }
{
    let locked = locked_of(own, token, owner);
    let kept = kept_of(own, token, owner);
    u128::from(free).saturating_add(locked).saturating_add(kept)
}

/// What is free, resting and owed of a token.
pub fn deposits_of(book: &Book<'_>, token: Token) -> u128
    requires { IsBook book.now }
    ensures { (m : Market) → IsOf book.now m → result ≡ capped (rules.deposited (token_of token) m) }
{
    let (orders, side) = locking(book, token);
    let free = sum_amounts(book.accounts, Amount::Free(token));
    let locked = sum_locked(orders, side, book.sizes);
    let owed = sum_pending(book.events, Weight::Owed(token));
    free.saturating_add(locked).saturating_add(owed)
}

/// What the referrer rebates must be.
pub fn rebates(book: &Book<'_>) -> u128
    requires { IsBook book.now }
    ensures { (m : Market) → IsOf book.now m
        → result ≡ capped (all_referrers m.traders + total referred m.events) }
{
    let held = sum_amounts(book.accounts, Amount::Referrer);
    held.saturating_add(sum_pending(book.events, Weight::Referred))
}

/// What a vault and the pending makers' fills that pay out of totals come to.
pub fn with_pending(book: &Book<'_>, amount: u64, weight: Weight) -> u128
    requires { IsBook book.now }
    ensures { (m : Market) → IsOf book.now m → result ≡ capped (amount + total (weight_of weight) m.events) }
{
    u128::from(amount).saturating_add(sum_pending(book.events, weight))
}

/// Tells the totals of an open account that are not their sums.
fn tell_totals_of(
    found: &mut Vec<Finding>,
    own: &Own<'_>,
    owner: Address,
    view: OrdersRef<'_>,
) -> Result<(), NoMemory>
    requires { IsOpen view.bytes.now }
    ensures { (m : Market) → IsOwnOf own.now m → OnOk result (found.new.items ≡ found.old.items
        ++ (rules.total_off Coin m owner (account_of view.entry.bytes.now)
        ++ rules.total_off Pc m owner (account_of view.entry.bytes.now))) }
{
    let funds = view.funds();
    let coin = total_of(own, Token::Coin, owner, funds.coin_free);
    let pc = total_of(own, Token::Pc, owner, funds.pc_free);
    tell_differs(found, 7, owner, 85, funds.coin_total, coin)?;
    tell_differs(found, 7, owner, 101, funds.pc_total, pc)
}

/// Tells the totals of open accounts that are not their sums.
pub fn tell_totals(found: &mut Vec<Finding>, own: &Own<'_>) -> Result<(), NoMemory>
    requires { IsBook own.now.book }
    ensures { (m : Market) → IsOwnOf own.now m
        → OnOk result (found.new.items ≡ found.old.items ++ rules.totals_in m) }
{
    for account in own.book.accounts {
        if let Some(view) = opened(&account.bytes) {
            tell_totals_of(found, own, account.address, view)?;
        }
    }
    Ok(())
}
