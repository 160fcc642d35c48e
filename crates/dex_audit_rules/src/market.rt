//! The rules of one market's accounts.

ghost use Rattle.std.specs.Prelude.{◌≡◌, ◌++◌, OnOk};
ghost use Rattle.dex_types.specs.Accounts.{market_accounts_of};
ghost use Rattle.dex_types.specs.Market.{Market};
ghost use Rattle.dex_accounts.specs.Accepted.{IsAccepted};
ghost use Rattle.dex_accounts.specs.Decoded.{market_in};
ghost use Rattle.dex_audit_rules.specs.Books.{IsBook, IsBookOf, IsOf, gathered_in, plain_gathered};
ghost use Rattle.dex_audit_rules.specs.Funds as funds;
ghost use Rattle.dex_audit_rules.specs.RulesOf.{told_by};
ghost use Rattle.dex_audit_rules.specs.Slots as rules;

use crate::book::Book;
use crate::finding::Finding;
use crate::gathered::Gathered;
use crate::locks::{tell_exceeds, tell_too_large};
use crate::misheld::tell_misheld;
use crate::own::Own;
use crate::pending::tell_astray;
use crate::resting::tell_homeless;
use crate::slots::{tell_repeated, tell_ungiven, tell_unpaired};
use crate::taken::taken_slots;
use crate::totals::{deposits_of, rebates, tell_differs, tell_totals, with_pending};
use dex_fields::get_u64;
use dex_fields::request_queue::NEXT_SEQ_NUM;
use dex_market::MarketRef;
use dex_token::WalletRef;
use dex_totals::{Owners, Token, Weight, all_finals, all_resting};
use dex_types::{Lots, MarketAccounts, NoMemory, Side};
use std::alloc::Global;

/// A rule of a market, named after what breaks it.
#[derive(Clone, Copy, Debug, PartialEq, Eq)]
pub enum Rule {
    /// 1: a resting order of no open account.
    Homeless,
    /// 2: a slot that does not hold an order that rests for it.
    Misheld,
    /// 3: a taken slot whose order neither rests nor is ended once, or both.
    Unpaired,
    /// 4: a pending event that no slot holds, or after the end of its order.
    Astray,
    /// 5: a taken slot whose order has a sequence number that was not given out.
    Ungiven,
    /// 6: a taken slot whose order has the sequence number of an earlier one.
    Repeated,
    /// 7: an open account's total that is not its sum.
    Totals,
    /// 8: a word of deposits that is not their sum.
    Deposits,
    /// 9: a vault that is not its sum.
    Vaults,
    /// 10: referrer rebates that are not their sum.
    Rebates,
    /// 11: a vault that can pass 2^64 with what pending fills take.
    Beyond,
    /// 13: a resting order that locks 2^64 or more.
    TooLarge,
}

/// The words of the market account.
fn words_of(market: &MarketAccounts) -> MarketRef<'_>
    ensures { result.bytes.now ≡ (market_accounts_of market.now).market }
{
    MarketRef {
        bytes: &market.market,
    }
}

fn tell_orders(
    alloc: Global,
    found: &mut Vec<Finding>,
    market: &MarketAccounts,
    book: &Book<'_>,
) -> Result<(), NoMemory>
    requires { IsBookOf book.now (market_accounts_of market.now) }
    ensures { OnOk result (found.new.items ≡ found.old.items
        ++ rules.homeless_in (market_in (market_accounts_of market.now))) }
{
    let words = words_of(market);
    let owners = Owners::of(alloc, book.accounts)?;
    tell_homeless(found, &owners, words.bids(), book.bids)?;
    tell_homeless(found, &owners, words.asks(), book.asks)
}

fn tell_locks(
    found: &mut Vec<Finding>,
    market: &MarketAccounts,
    book: &Book<'_>,
) -> Result<(), NoMemory>
    requires { IsBookOf book.now (market_accounts_of market.now) }
    ensures { OnOk result (found.new.items ≡ found.old.items
        ++ funds.too_large_in (market_in (market_accounts_of market.now))) }
{
    let words = words_of(market);
    tell_too_large(found, book.bids, Side::Bid, book.sizes, words.bids())?;
    tell_too_large(found, book.asks, Side::Ask, book.sizes, words.asks())
}

fn tell_deposits(
    found: &mut Vec<Finding>,
    market: &MarketAccounts,
    book: &Book<'_>,
) -> Result<(), NoMemory>
    requires { IsBookOf book.now (market_accounts_of market.now) }
    ensures { OnOk result (found.new.items ≡ found.old.items ++ funds.deposits_in (market_accounts_of market.now)) }
{
    let words = words_of(market);
    let coin = deposits_of(book, Token::Coin);
    let pc = deposits_of(book, Token::Pc);
    tell_differs(
        found,
        8,
        market.address,
        149,
        words.coin_deposits_total(),
        coin,
    )?;
    tell_differs(found, 8, market.address, 197, words.pc_deposits_total(), pc)
}

fn tell_vaults(
    found: &mut Vec<Finding>,
    market: &MarketAccounts,
    book: &Book<'_>,
) -> Result<(), NoMemory>
    requires { IsBookOf book.now (market_accounts_of market.now) }
    ensures { OnOk result (found.new.items ≡ found.old.items
        ++ funds.vaults_in (market_in (market_accounts_of market.now))) }
{
    let words = words_of(market);
    let coin = deposits_of(book, Token::Coin).saturating_add(u128::from(words.coin_fees_accrued()));
    let earned = u128::from(words.pc_fees_accrued()) + u128::from(words.referrer_rebates_accrued());
    let pc = deposits_of(book, Token::Pc).saturating_add(earned);
    let coin_vault = WalletRef {
        bytes: &market.coin_vault,
    };
    let pc_vault = WalletRef {
        bytes: &market.pc_vault,
    };
    tell_differs(found, 9, words.coin_vault(), 64, coin_vault.amount(), coin)?;
    tell_differs(found, 9, words.pc_vault(), 64, pc_vault.amount(), pc)
}

fn tell_rebates(
    found: &mut Vec<Finding>,
    market: &MarketAccounts,
    book: &Book<'_>,
) -> Result<(), NoMemory>
    requires { IsBookOf book.now (market_accounts_of market.now) }
    ensures { OnOk result (found.new.items ≡ found.old.items
        ++ funds.rebates_in (market_in (market_accounts_of market.now))) }
{
    let words = words_of(market);
    tell_differs(
        found,
        10,
        market.address,
        373,
        words.referrer_rebates_accrued(),
        rebates(book),
    )
}

fn tell_beyond(
    found: &mut Vec<Finding>,
    market: &MarketAccounts,
    book: &Book<'_>,
) -> Result<(), NoMemory>
    requires { IsBookOf book.now (market_accounts_of market.now) }
    ensures { OnOk result (found.new.items ≡ found.old.items
        ++ funds.beyond_in (market_in (market_accounts_of market.now))) }
{
    let words = words_of(market);
    let coin_vault = WalletRef {
        bytes: &market.coin_vault,
    };
    let pc_vault = WalletRef {
        bytes: &market.pc_vault,
    };
    let coin = with_pending(book, coin_vault.amount(), Weight::Leaving(Token::Coin));
    let pc = with_pending(book, pc_vault.amount(), Weight::Leaving(Token::Pc));
    tell_exceeds(found, 11, words.coin_vault(), 64, coin)?;
    tell_exceeds(found, 11, words.pc_vault(), 64, pc)
}

/// Tells the taken slots whose order does not rest or is not ended once.
fn tell_ends(alloc: Global, found: &mut Vec<Finding>, book: &Book<'_>) -> Result<(), NoMemory>
    requires { IsBook book.now }
    ensures { (m : Market) → IsOf book.now m
        → OnOk result (found.new.items ≡ found.old.items ++ rules.unpaired_in m) }
{
    let taken = taken_slots(alloc, book.accounts)?;
    let resting = all_resting(alloc, book.bids, book.asks)?;
    let finals = all_finals(alloc, book.events)?;
    tell_unpaired(found, &resting, &finals, &taken)
}

fn tell_events(
    alloc: Global,
    found: &mut Vec<Finding>,
    market: &MarketAccounts,
    book: &Book<'_>,
) -> Result<(), NoMemory>
    requires { IsBookOf book.now (market_accounts_of market.now) }
    ensures { OnOk result (found.new.items ≡ found.old.items
        ++ rules.astray_in (market_in (market_accounts_of market.now))) }
{
    let words = words_of(market);
    let owners = Owners::of(alloc, book.accounts)?;
    tell_astray(alloc, found, &owners, book.events, words.event_q())
}

fn tell_numbers(
    alloc: Global,
    found: &mut Vec<Finding>,
    market: &MarketAccounts,
    book: &Book<'_>,
) -> Result<(), NoMemory>
    requires { IsBookOf book.now (market_accounts_of market.now) }
    ensures { OnOk result (found.new.items ≡ found.old.items
        ++ rules.ungiven_in (market_in (market_accounts_of market.now))) }
{
    let taken = taken_slots(alloc, book.accounts)?;
    tell_ungiven(found, get_u64(&market.requests, NEXT_SEQ_NUM), &taken)
}

fn tell_holdings(alloc: Global, found: &mut Vec<Finding>, book: &Book<'_>) -> Result<(), NoMemory>
    requires { IsBook book.now }
    ensures { (m : Market) → IsOf book.now m
        → OnOk result (found.new.items ≡ found.old.items ++ rules.misheld_in m) }
{
    let own = Own::of(alloc, book)?;
    tell_misheld(found, &own)
}

fn tell_sums(alloc: Global, found: &mut Vec<Finding>, book: &Book<'_>) -> Result<(), NoMemory>
    requires { IsBook book.now }
    ensures { (m : Market) → IsOf book.now m
        → OnOk result (found.new.items ≡ found.old.items ++ funds.totals_in m) }
{
    let own = Own::of(alloc, book)?;
    tell_totals(found, &own)
}

fn tell_doubles(alloc: Global, found: &mut Vec<Finding>, book: &Book<'_>) -> Result<(), NoMemory>
    requires { IsBook book.now }
    ensures { (m : Market) → IsOf book.now m
        → OnOk result (found.new.items ≡ found.old.items ++ rules.repeated_in m) }
{
    let taken = taken_slots(alloc, book.accounts)?;
    tell_repeated(alloc, found, &taken)
}

/// What the rules read of a market.
fn book_of<'a>(market: &'a MarketAccounts, gathered: &'a Gathered) -> Book<'a>
    requires accepted { IsAccepted (market_accounts_of market.now) }
    requires gathered { plain_gathered gathered.now ≡ gathered_in (market_accounts_of market.now) }
    ensures book { IsBook result }
    ensures of { IsOf result (market_in (market_accounts_of market.now)) }
{
    let words = words_of(market);
    Book {
        bids: &gathered.bids,
        asks: &gathered.asks,
        events: &gathered.events,
        accounts: &market.orders,
        sizes: Lots {
            coin: words.coin_lot_size(),
            pc: words.pc_lot_size(),
        },
    }
}

/// Tells what breaks a rule in a market's accounts, of which the orders and events were gathered.
pub fn tell_rule(
    alloc: Global,
    found: &mut Vec<Finding>,
    market: &MarketAccounts,
    gathered: &Gathered,
    rule: Rule,
) -> Result<(), NoMemory>
    requires accepted { IsAccepted (market_accounts_of market.now) }
    requires gathered { plain_gathered gathered.now ≡ gathered_in (market_accounts_of market.now) }
    ensures { OnOk result (found.new.items ≡ found.old.items ++ told_by rule (market_accounts_of market.now)) }
{
    let book = book_of(market, gathered);
    match rule {
        Rule::Homeless => tell_orders(alloc, found, market, &book),
        Rule::Misheld => tell_holdings(alloc, found, &book),
        Rule::Unpaired => tell_ends(alloc, found, &book),
        Rule::Astray => tell_events(alloc, found, market, &book),
        Rule::Ungiven => tell_numbers(alloc, found, market, &book),
        Rule::Repeated => tell_doubles(alloc, found, &book),
        Rule::Totals => tell_sums(alloc, found, &book),
        Rule::Deposits => tell_deposits(found, market, &book),
        Rule::Vaults => tell_vaults(found, market, &book),
        Rule::Rebates => tell_rebates(found, market, &book),
        Rule::Beyond => tell_beyond(found, market, &book),
        Rule::TooLarge => tell_locks(found, market, &book),
    }
}
