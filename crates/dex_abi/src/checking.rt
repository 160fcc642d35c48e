//! Checks of what a caller in C lends.

ghost use Rattle.std.specs.Prelude.{◌≡◌, ◌⊎◌, IfOk};
ghost use Rattle.dex_abi.specs.Checked.{EndsCheck, EndsChecked, counted_on};
ghost use Rattle.dex_abi.specs.Lent as lent;
ghost use Rattle.dex_check.specs.Both.{CanAct, TellsBoth};
ghost use Rattle.dex_check.specs.Flaws as checks;
ghost use Rattle.dex_check.specs.Wallets as purse;

use crate::flaws::{FlawNumbers, flaw_numbers};
use crate::numbers::ReplyNumbers;
use crate::processing::{count_pending, process_in, roles_in};
use crate::records::{Instruction, MarketBytes, WalletsBytes};
use crate::telling::blank;
use dex_check::{Flaw, MarketSlices, WalletSlices, check, check_both};
use dex_types::{Address, NoMemory};
use std::alloc::Global;

/// A market's accounts, for reading.
fn slices_of<'a>(market: &'a MarketBytes<'_>) -> MarketSlices<'a>
    ensures { checks.accounts_of result ≡ lent.accounts_of market.now }
{
    let address = market.address;
    let authority = market.authority;
    MarketSlices {
        address: Address(address),
        authority: Address(authority),
        market: market.market,
        coin_vault: market.coin_vault,
        pc_vault: market.pc_vault,
        requests: market.requests,
        events: market.events,
        bids: market.bids,
        asks: market.asks,
        orders: market.orders,
    }
}

/// The wallets, for reading.
fn wallet_slices_of<'a>(wallets: &'a WalletsBytes<'_>) -> WalletSlices<'a>
    ensures { purse.purse_of result ≡ lent.purse_of wallets.now }
{
    let first = wallets.first_address;
    let second = wallets.second_address;
    let third = wallets.third_address;
    let fourth = wallets.fourth_address;
    WalletSlices {
        first_address: Address(first),
        first: wallets.first,
        second_address: Address(second),
        second: wallets.second,
        third_address: Address(third),
        third: wallets.third,
        fourth_address: Address(fourth),
        fourth: wallets.fourth,
    }
}

/// The first flaw of what an instruction acts on.
fn flaw_of(
    alloc: Global,
    market: &MarketBytes<'_>,
    wallets: &WalletsBytes<'_>,
    instruction: &Instruction<'_>,
) -> Result<Option<Flaw>, NoMemory>
    ensures { IfOk result (λ told. TellsBoth told (lent.roles_in instruction.now) (lent.accounts_of market.now)
        (lent.purse_of wallets.now)) }
{
    let market = slices_of(market);
    let wallets = wallet_slices_of(wallets);
    let roles = roles_in(instruction);
    check_both(alloc, &market, &wallets, &roles)
}

/// Whether the bytes are the accounts of a sound market: 0 where they are; 3, and their first flaw; or 7 where memory
/// is wanting.
pub fn check_in(alloc: Global, market: &MarketBytes<'_>, flaw: &mut FlawNumbers) -> u8
    ensures { EndsCheck result flaw.new (lent.accounts_of market.now) }
{
    let market = slices_of(market);
    match check(alloc, &market) {
        Ok(None) => {
            *flaw = flaw_numbers(None);
            0
        }
        Ok(Some(found)) => {
            *flaw = flaw_numbers(Some(found));
            3
        }
        Err(_) => {
            *flaw = flaw_numbers(None);
            7
        }
    }
}

/// Counts what is pending, and does an instruction on what has no flaw.
fn process_counted(
    market: &mut MarketBytes<'_>,
    wallets: &mut WalletsBytes<'_>,
    instruction: &Instruction<'_>,
) -> ReplyNumbers
    requires { CanAct (lent.roles_in instruction.now) (lent.accounts_of market.old) (lent.purse_of wallets.old) }
    ensures ends { lent.EndsOn instruction.entry.now result (counted_on market.old wallets.old)
        (lent.acting_on market.new wallets.new) }
    ensures places { lent.KeepsPlaces market.old wallets.old market.new wallets.new }
{
    count_pending(market);
    process_in(market, wallets, instruction)
}

/// What `process` does, for who vouches for no byte: the market is checked, and then the wallets that are named; what
/// is pending is counted; and the instruction is done. 0 where they have no flaw, and its reply; 3, and the first flaw;
/// or 7 where memory is wanting. Of the last two no account was changed, and the reply is all 0.
pub fn process_checked_in(
    alloc: Global,
    market: &mut MarketBytes<'_>,
    wallets: &mut WalletsBytes<'_>,
    instruction: &Instruction<'_>,
    flaw: &mut FlawNumbers,
    reply: &mut ReplyNumbers,
) -> u8
    ensures ends { EndsChecked instruction.entry.now result flaw.new reply.new market.old wallets.old
        market.new wallets.new }
    ensures places { lent.KeepsPlaces market.old wallets.old market.new wallets.new }
    ensures alone { (result ≡ 0) ⊎ ((market.new ≡ market.old) × (wallets.new ≡ wallets.old)) }
{
    match flaw_of(alloc, market, wallets, instruction) {
        Ok(None) => {
            *flaw = flaw_numbers(None);
            *reply = process_counted(market, wallets, instruction);
            0
        }
        Ok(Some(found)) => {
            *flaw = flaw_numbers(Some(found));
            *reply = blank();
            3
        }
        Err(_) => {
            *flaw = flaw_numbers(None);
            *reply = blank();
            7
        }
    }
}
