//! Scripts that are made by a number: eight traders on two markets, whose rows are drawn.

ghost use Rattle.std.specs.Prelude.{◌≡◌, ◌+◌, ◌<◌, ◌≤◌, ◌==◌, ◌++◌, if◌then◌else◌, IfOk, OnOk, Some, codes};
ghost use Rattle.std.specs.String.{string_bytes};
ghost use Rattle.dex_types.specs.declared.terms.Side.TheVariants.{Bid, Ask};
ghost use Rattle.dex_report.specs.Draws as draws;
ghost use Rattle.dex_report.specs.Lines.{numbered};
ghost use Rattle.dex_report.specs.Made as scripts;
ghost use Rattle.dex_report.specs.MadeRows as rows_of;
ghost use Rattle.dex_report.specs.MadeSetup as setup;

use crate::lines::{LINE, push_from};
use crate::made_rows::{MadeInstruction, MadeMarket, put_consuming, put_drawn, put_opening};
use crate::made_setup::{MarketLine, OrdersLine, WalletLines};
use dex_types::{NoMemory, OrderType, Side};
use rand_core::utils::NextWord;
use rand_pcg::Lcg64Xsh32;
use std::alloc::{AllocError, Global};
use std::fmt;
use std::fmt::Write;

/// The script of this number with this many drawn rows. What is drawn follows from the 32-bit words of PCG's generator
/// at this number and stream 1, so one number and one count of rows give one script.
pub fn make_script(alloc: Global, number: u64, rows: u32) -> Result<Vec<u8>, NoMemory>
    requires some { 1 ≤ rows }
    requires limit { rows ≤ 20000 }
    ensures { IfOk result (λ text. text.items ≡ scripts.made_text number rows) }
{
    match script(alloc, number, rows) {
        Ok(text) => Ok(text),
        Err(_) => Err(NoMemory),
    }
}

fn script(alloc: Global, number: u64, rows: u32) -> Result<Vec<u8>, AllocError>
    requires { rows ≤ 20000 }
    ensures { IfOk result (λ text. text.items ≡ scripts.made_text number rows) }
{
    let mut text = String::new(alloc);
    write_setup(&mut text)?;
    let mut text = text.into_bytes();
    text.reserve_exact((rows as usize + 16) * 64)?;
    let mut line = [0; LINE];
    write_openings(&mut text, &mut line, MadeMarket::First)?;
    write_openings(&mut text, &mut line, MadeMarket::Second)?;
    write_rows(&mut text, &mut line, number, rows)?;
    Ok(text)
}

/// The rows that make all accounts.
fn write_setup(text: &mut String) -> Result<(), AllocError>
    ensures { OnOk result (string_bytes text.new ≡ string_bytes text.old ++ setup.accounts_text) }
{
    write!(text, "mint,base,6\nmint,quote,6\n")?;
    write_wallets(text)?;
    write!(text, "{}", MarketLine(MadeMarket::First))?;
    write!(text, "{}", MarketLine(MadeMarket::Second))?;
    write_accounts(text, MadeMarket::First)?;
    write_accounts(text, MadeMarket::Second)?;
    Ok(())
}

/// The wallets of all traders.
fn write_wallets(text: &mut String) -> Result<(), AllocError>
    ensures { OnOk result (string_bytes text.new ≡ string_bytes text.old ++ numbered setup.wallet_lines 8) }
{
    'traders: for trader in 0..8u32 {
        write!(text, "{}", WalletLines(trader))?;
    }
    Ok(())
}

/// The open-orders accounts of all traders on a market.
fn write_accounts(text: &mut String, market: MadeMarket) -> Result<(), AllocError>
    ensures { OnOk result (string_bytes text.new ≡ string_bytes text.old ++ numbered (setup.orders_line market) 8) }
{
    'traders: for trader in 0..8u32 {
        write!(text, "{}", OrdersLine { market, trader })?;
    }
    Ok(())
}

/// The rows that open these accounts.
fn write_openings(
    text: &mut Vec<u8>,
    line: &mut [u8; LINE],
    market: MadeMarket,
) -> Result<(), AllocError>
    ensures { OnOk result (text.new.items ≡ text.old.items ++ numbered (rows_of.opening_line market) 8) }
{
    'traders: for trader in 0..8u32 {
        let start = put_opening(line, market, trader);
        push_from(text, line, start)?;
    }
    Ok(())
}

/// The drawn rows.
fn write_rows(
    text: &mut Vec<u8>,
    line: &mut [u8; LINE],
    number: u64,
    rows: u32,
) -> Result<(), AllocError>
    requires { rows ≤ 20000 }
    ensures { OnOk result (text.new.items ≡ text.old.items ++ numbered (scripts.row_of number) rows) }
{
    let mut generator = generator_of(number);
    'rows: for i in 0..rows {
        write_row(text, line, &mut generator, i)?;
    }
    Ok(())
}

/// Row i.
#[tactic(auto, unfolding(crate::specs::Made::row_text, crate::specs::Made::after_row))]
fn write_row(
    text: &mut Vec<u8>,
    line: &mut [u8; LINE],
    generator: &mut Lcg64Xsh32,
    i: u32,
) -> Result<(), AllocError>
    requires { i < 20000 }
    ensures text { OnOk result (text.new.items ≡ text.old.items ++ scripts.row_text i generator.old) }
    ensures generator { generator.new ≡ scripts.after_row i generator.old }
{
    let trader = i % 8;
    if i % 10 == 9 {
        let start = put_consuming(line, MadeMarket::by(i / 10), trader);
        push_from(text, line, start)
    } else {
        let asked = draw_instruction(generator, i);
        let start = put_drawn(line, MadeMarket::by(i / 8), trader, asked);
        push_from(text, line, start)
    }
}

/// The generator that the script of this number draws from.
#[tactic(auto, unfolding(crate::specs::Draws::generator_of))]
fn generator_of(number: u64) -> Lcg64Xsh32
    ensures { result ≡ draws.generator_of number }
{
    Lcg64Xsh32::new(number, 1)
}

/// A number below `m`, by the generator's next word.
#[tactic(auto, unfolding(crate::specs::Draws::draw, crate::specs::Draws::after_draw))]
fn draw(generator: &mut Lcg64Xsh32, m: u32) -> u32
    requires { 1 ≤ m }
    ensures drawn { result ≡ draws.draw m generator.old }
    ensures below { result < m }
    ensures generator { generator.new ≡ draws.after_draw generator.old }
{
    generator.next_word() % m
}

/// What row i asks for.
#[tactic(auto, unfolding(crate::specs::Draws::drawn))]
fn draw_instruction(generator: &mut Lcg64Xsh32, i: u32) -> MadeInstruction
    requires { i < 20000 }
    ensures asked { result ≡ (draws.drawn i generator.old).asked }
    ensures generator { generator.new ≡ (draws.drawn i generator.old).after }
{
    match draw(generator, 10) {
        0..=5 => draw_order(generator, OrderType::Limit, i + 1),
        6 => draw_order(generator, OrderType::Ioc, i + 1),
        7 => draw_cancel(generator, i),
        _ => MadeInstruction::Settle,
    }
}

fn draw_order(generator: &mut Lcg64Xsh32, order_type: OrderType, client: u32) -> MadeInstruction
    ensures asked { result ≡ (draws.drawn_order order_type client generator.old).asked }
    ensures generator { generator.new ≡ (draws.drawn_order order_type client generator.old).after }
{
    let side = draw_side(generator);
    let price = 90 + draw(generator, 21);
    let lots = 1 + draw(generator, 20);
    MadeInstruction::New {
        side,
        price,
        lots,
        pc: 20 * lots * price,
        order_type,
        client,
    }
}

fn draw_side(generator: &mut Lcg64Xsh32) -> Side
    ensures side { result ≡ (if draws.draw 2 generator.old == 0 then Bid else Ask) }
    ensures generator { generator.new ≡ draws.after_draw generator.old }
{
    if draw(generator, 2) == 0 {
        Side::Bid
    } else {
        Side::Ask
    }
}

fn draw_cancel(generator: &mut Lcg64Xsh32, i: u32) -> MadeInstruction
    requires { i < 20000 }
    ensures asked { result ≡ (draws.drawn_cancel i generator.old).asked }
    ensures generator { generator.new ≡ (draws.drawn_cancel i generator.old).after }
{
    MadeInstruction::Cancel {
        client: 1 + draw(generator, i + 1),
    }
}
