//! The instruction rows of made scripts, put together from their ends as the lines of journals are.

ghost use Rattle.std.specs.Prelude.{◌≡◌, ◌+◌, ◌<◌, ◌≤◌, [], ◌∷◌, ◌++◌, Some, codes, drop, length};
ghost use Rattle.std.specs.Fmt.{decimal};
ghost use Rattle.dex_types.specs.Text.{spaced};
ghost use Rattle.dex_report.specs.MadeRows as rows;

use crate::lines::{LINE, put_end, put_number, put_told, put_two, put_word};
use dex_types::{OrderType, Side};
use std::fmt;

/// One of the two markets of a made script. It prints as its label.
#[derive(Clone, Copy)]
pub enum MadeMarket {
    First,
    Second,
}

impl MadeMarket {
    /// The first market for an even number, else the second.
    #[tactic(auto, unfolding(crate::specs::MadeRows::market_by))]
    pub fn by(n: u32) -> MadeMarket
        ensures { result ≡ rows.market_by n }
    {
        if n % 2 == 0 {
            MadeMarket::First
        } else {
            MadeMarket::Second
        }
    }

    /// The letter of the market's open-orders accounts.
    fn letter(self) -> u8
        ensures { rows.letter_text self ≡ result ∷ [] }
    {
        match self {
            MadeMarket::First => b'a',
            MadeMarket::Second => b'b',
        }
    }

    /// The labels of all these accounts.
    fn accounts(self) -> &'static [u8]
        ensures text { result.now ≡ rows.accounts_text self }
        ensures length { length result.now ≡ 23 }
    {
        match self {
            MadeMarket::First => b"a0 a1 a2 a3 a4 a5 a6 a7",
            MadeMarket::Second => b"b0 b1 b2 b3 b4 b5 b6 b7",
        }
    }

    /// The digit of the market's label.
    fn digit(self) -> u8
        ensures { rows.market_text self ≡ 109 ∷ result ∷ [] }
    {
        match self {
            MadeMarket::First => b'0',
            MadeMarket::Second => b'1',
        }
    }
}

impl fmt::Display for MadeMarket {
    ghost output = { λ market. Some (rows.market_text market) };

    fn fmt<W: fmt::Write>(&self, f: &mut fmt::Formatter<W>) -> fmt::Result {
        match self {
            MadeMarket::First => write!(f, "m0"),
            MadeMarket::Second => write!(f, "m1"),
        }
    }
}

/// What a drawn row asks for. `pc` is the native quote that a new order may spend, fees included.
#[derive(Clone, Copy)]
pub enum MadeInstruction {
    New {
        side: Side,
        price: u32,
        lots: u32,
        pc: u32,
        order_type: OrderType,
        client: u32,
    },
    Cancel {
        client: u32,
    },
    Settle,
}

/// The digit of a number below 10.
fn digit(number: u32) -> u8
    requires { number < 10 }
    ensures { decimal number ≡ result ∷ [] }
{
    b'0' + number as u8
}

/// Puts the row by which a trader opens the account on a market at the end of a line, and returns where it starts.
#[tactic(auto, unfolding(crate::specs::MadeRows::account_text))]
pub(crate) fn put_opening(line: &mut [u8; LINE], market: MadeMarket, trader: u32) -> usize
    requires { trader < 8 }
    ensures start { result ≤ 768 }
    ensures written { drop result line.new ≡ rows.opening_line market trader }
{
    let init = put_word(line, b",-,-,-,-,init\n", LINE);
    let account = put_word(line, &[market.letter(), digit(trader)], init);
    put_place(line, market, trader, account)
}

/// Puts the row by which a trader asks for what was drawn at the end of a line, and returns where it starts.
pub(crate) fn put_drawn(
    line: &mut [u8; LINE],
    market: MadeMarket,
    trader: u32,
    asked: MadeInstruction,
) -> usize
    requires { trader < 8 }
    ensures start { result ≤ 768 }
    ensures written { drop result line.new ≡ rows.drawn_line market trader asked }
{
    let end = put_end(line);
    let asked = put_asked(line, asked, end);
    let accounts = put_accounts(line, market, trader, asked);
    put_place(line, market, trader, accounts)
}

/// Puts the row by which a trader consumes events for all accounts of a market at the end of a line, and returns where
/// it starts.
pub(crate) fn put_consuming(line: &mut [u8; LINE], market: MadeMarket, trader: u32) -> usize
    requires { trader < 8 }
    ensures start { result ≤ 768 }
    ensures written { drop result line.new ≡ rows.consuming_line market trader }
{
    let consume = put_word(line, b",-,-,-,-,consume 1000\n", LINE);
    let accounts = put_word(line, market.accounts(), consume);
    put_place(line, market, trader, accounts)
}

/// Puts a row's first word, its lane, its market and its trader in front of a place.
#[tactic(auto, unfolding(crate::specs::MadeRows::row_place))]
fn put_place(line: &mut [u8; LINE], market: MadeMarket, trader: u32, end: usize) -> usize
    requires room { (11 ≤ end) × (end ≤ 768) }
    requires trader { trader < 8 }
    ensures start { result + 11 ≡ end }
    ensures written { drop result line.new
        ≡ codes "do," ++ rows.row_place market trader ++ codes "," ++ drop end line.old }
{
    let lane = digit(trader % 4);
    let market = market.digit();
    let trader = digit(trader);
    put_word(
        line,
        &[
            b'd', b'o', b',', lane, b',', b'm', market, b',', b'u', trader, b',',
        ],
        end,
    )
}

/// Puts a trader's account on a market and both wallets in front of a place, and that no other wallet is named.
#[tactic(auto, unfolding(crate::specs::MadeRows::account_text))]
fn put_accounts(line: &mut [u8; LINE], market: MadeMarket, trader: u32, end: usize) -> usize
    requires room { (13 ≤ end) × (end ≤ 768) }
    requires trader { trader < 8 }
    ensures start { result + 13 ≡ end }
    ensures written { drop result line.new ≡ rows.account_text market trader ++ codes ",c" ++ decimal trader
        ++ codes ",q" ++ decimal trader ++ codes ",-,-," ++ drop end line.old }
{
    let market = market.letter();
    let trader = digit(trader);
    put_word(
        line,
        &[
            market, trader, b',', b'c', trader, b',', b'q', trader, b',', b'-', b',', b'-', b',',
        ],
        end,
    )
}

/// Puts what a row asks for in front of a place.
fn put_asked(line: &mut [u8; LINE], asked: MadeInstruction, end: usize) -> usize
    requires { (140 ≤ end) × (end ≤ 768) }
    ensures start { (result ≤ end) × (end ≤ result + 140) }
    ensures written { drop result line.new ≡ rows.asked_text asked ++ drop end line.old }
{
    match asked {
        MadeInstruction::New {
            side,
            price,
            lots,
            pc,
            order_type,
            client,
        } => {
            let limit = put_word(line, b" 10", end);
            let client = put_number(line, client as u64, limit);
            let rules = put_rules(line, order_type, client);
            let lots = put_two(line, lots as u64, pc as u64, rules);
            let price = put_number(line, price as u64, lots);
            put_side(line, side, price)
        }
        MadeInstruction::Cancel { client } => put_told(line, b"cancelc", client as u64, end),
        MadeInstruction::Settle => put_word(line, b"settle", end),
    }
}

/// Puts the word of a new order and its side in front of a place.
fn put_side(line: &mut [u8; LINE], side: Side, end: usize) -> usize
    requires { (7 ≤ end) × (end ≤ 768) }
    ensures start { result + 7 ≡ end }
    ensures written { drop result line.new ≡ codes "new" ++ spaced (rows.side_text side) ++ drop end line.old }
{
    match side {
        Side::Bid => put_word(line, b"new bid", end),
        Side::Ask => put_word(line, b"new ask", end),
    }
}

/// Puts what a new order does with own orders that it meets, and its type, in front of a place.
fn put_rules(line: &mut [u8; LINE], order_type: OrderType, end: usize) -> usize
    requires { (13 ≤ end) × (end ≤ 768) }
    ensures start { (result ≤ end) × (end ≤ result + 13) }
    ensures written { drop result line.new
        ≡ codes " cancel" ++ spaced (rows.type_text order_type) ++ drop end line.old }
{
    match order_type {
        OrderType::Limit => put_word(line, b" cancel limit", end),
        OrderType::Ioc => put_word(line, b" cancel ioc", end),
        OrderType::PostOnly => put_word(line, b" cancel post", end),
    }
}
