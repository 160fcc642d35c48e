//! The prices of a market.

ghost use Rattle.std.specs.Prelude.{◌≡◌, ◌++◌, OnOk, Some, ◌-◌};
ghost use Rattle.dex_types.specs.Accounts.{market_accounts_of};
ghost use Rattle.dex_types.specs.Cancel.{order_with};
ghost use Rattle.dex_types.specs.Side.{price_of as price_in};
ghost use Rattle.dex_accounts.specs.Accepted.{IsAccepted};
ghost use Rattle.dex_laws.specs.Walks.{IsReached, orders_from};
ghost use Rattle.dex_slab.specs.Slab.{IsSlab, resting};
ghost use Rattle.dex_desk.specs.Books as spec;

use crate::opening::append;
use dex_slab::SlabRef;
use dex_types::{MarketAccounts, NoMemory, Order, Side, SideRead};
use std::alloc::Global;
use std::fmt;

/// Writes the best prices of a market: `book`, a line for each price, bids before asks, and `end`.
pub fn write_book(
    alloc: Global,
    text: &mut Vec<u8>,
    accounts: &MarketAccounts,
    depth: u32,
) -> Result<(), NoMemory>
    requires { IsAccepted (market_accounts_of accounts.now) }
    ensures { OnOk result (text.new.items ≡ text.old.items ++ spec.book_text depth (market_accounts_of accounts.now)) }
{
    append(text, b"book\n")?;
    let bids = SlabRef {
        bytes: &accounts.bids,
        side: Side::Bid,
    };
    write_side(alloc, text, &bids, depth)?;
    let asks = SlabRef {
        bytes: &accounts.asks,
        side: Side::Ask,
    };
    write_side(alloc, text, &asks, depth)?;
    append(text, b"end\n")
}

/// Writes so many prices of a side at most.
fn write_side(
    alloc: Global,
    text: &mut Vec<u8>,
    side: &SlabRef<'_>,
    depth: u32,
) -> Result<(), NoMemory>
    requires { IsSlab side.now.bytes.now }
    ensures { OnOk result (text.new.items
        ≡ text.old.items ++ spec.side_lines side.now.side depth (resting side.now.side side.now.bytes.now)) }
{
    let mut next = side.best();
    let mut left = depth;
    'levels: while let Some(first) = next {
        if left == 0 {
            return Ok(());
        }
        let (level, behind) = level_at(side, first);
        write_level(alloc, text, level)?;
        next = behind;
        left -= 1;
    }
    Ok(())
}

/// A price of a side, and how many lots rest there.
#[derive(Clone, Copy)]
struct Level {
    side: Side,
    price: u64,
    lots: u64,
}

impl fmt::Display for Level {
    ghost output = { λ level. Some (spec.level_text level.side level.price level.lots) };

    fn fmt<W: fmt::Write>(&self, f: &mut fmt::Formatter<W>) -> fmt::Result {
        let Level { side, price, lots } = *self;
        let word = word_of(side);
        write!(f, "{word} {price} {lots}\n")
    }
}

/// The word of a side.
fn word_of(side: Side) -> &'static str
    ensures { result.now ≡ spec.side_word side }
{
    match side {
        Side::Bid => "bid",
        Side::Ask => "ask",
    }
}

/// Writes a price.
fn write_level(alloc: Global, text: &mut Vec<u8>, level: Level) -> Result<(), NoMemory>
    ensures { OnOk result (text.new.items ≡ text.old.items ++ spec.level_text level.side level.price level.lots) }
{
    match format!(in alloc; "{level}") {
        Ok(line) => append(text, line.as_bytes()),
        Err(_) => Err(NoMemory),
    }
}

/// What rests at the price of an order that is the first there, and the first order behind it.
fn level_at(side: &SlabRef<'_>, first: Order) -> (Level, Option<Order>)
    requires slab { IsSlab side.now.bytes.now }
    requires rests { order_with first.id (resting side.now.side side.now.bytes.now) ≡ Some first }
    ensures side { result.0.side ≡ side.now.side }
    ensures price { result.0.price ≡ price_in first.id }
    ensures lots { result.0.lots ≡ spec.capped (spec.lots_at (price_in first.id)
        (orders_from (Some first) (resting side.now.side side.now.bytes.now))) }
    ensures behind { orders_from result.1 (resting side.now.side side.now.bytes.now)
        ≡ spec.behind_price (price_in first.id) (orders_from (Some first) (resting side.now.side side.now.bytes.now)) }
    ensures reached { IsReached result.1 (resting side.now.side side.now.bytes.now) }
{
    let price = price_of(first.id);
    let mut lots: u64 = 0;
    let mut next = Some(first);
    'orders: while let Some(order) = next {
        if price_of(order.id) != price {
            let side = side.side;
            return (Level { side, price, lots }, next);
        }
        lots = lots.saturating_add(order.lots);
        next = side.after(order.id);
    }
    let side = side.side;
    (Level { side, price, lots }, next)
}

/// How many ids there are of one price.
const PER_PRICE: u128 = 0x1_0000_0000_0000_0000;

/// The price of an order, by its id.
#[tactic(auto, unfolding(dex_types::specs::Side::price_of))]
fn price_of(id: u128) -> u64
    ensures { result ≡ price_in id }
{
    (id / PER_PRICE) as u64
}
