//! One instruction on one market.

ghost use Rattle.std.specs.Prelude.{◌≡◌, Ok};
ghost use Rattle.dex_accounts.specs.Decoded.{AreSound, market_in};
ghost use Rattle.dex_history.specs.Journal.{is_refusal};
ghost use Rattle.dex_lent.specs.Lent.{KeepsPlaces, lent_of};
ghost use Rattle.dex_plan.specs.Given.{asked_by};
ghost use Rattle.dex_plan.specs.Plans.{decided};
ghost use Rattle.dex_process.specs.Process.{CanAct, HasActed, HasProcessed, acting, seen_by, step_of};
ghost use Rattle.dex_purse.specs.Purse.{AreApart, AreSameLoans, AreWallets, purse_of};
ghost use Rattle.dex_ring.specs.PendingFills.{pending_fills_of};

use dex_decide::decide_ask;
use dex_lent::LentMarket;
use dex_plan::{Ask, Plan};
use dex_purse::{LentWallets, Roles, amounts_of, move_wallets, seen_as};
use dex_ring::PendingFills;
use dex_step::{StepsOrders, apply_ask};
use dex_types::{Address, Program, Refusal, Reply, Seen};

/// What holds for all instructions: the mints of SRM and MSRM, where there are any, and the program that runs.
#[derive(Clone, Copy)]
pub struct Terms {
    pub srm: Option<Address>,
    pub msrm: Option<Address>,
    pub program: Program,
}

/// What an instruction sees.
fn see(wallets: &LentWallets<'_>, roles: &Roles, terms: &Terms) -> Seen
    requires { AreWallets roles.now (purse_of wallets.now) }
    ensures { result ≡ seen_by roles.now terms.now (purse_of wallets.now) }
{
    Seen {
        coin: seen_as(wallets, roles.coin),
        pc: seen_as(wallets, roles.pc),
        discount: seen_as(wallets, roles.discount),
        referrer: seen_as(wallets, roles.referrer),
        srm: terms.srm,
        msrm: terms.msrm,
        program: terms.program,
    }
}

/// Does what was decided, on the market and on the wallets.
fn carry_out<O: StepsOrders>(
    market: &mut LentMarket<'_, O>,
    wallets: &mut LentWallets<'_>,
    ask: &Ask<'_>,
    roles: &Roles,
    seen: &Seen,
    plan: &Plan,
    pending: &mut PendingFills,
) -> Reply
    requires can { CanAct roles.now seen.now (acting (lent_of O.held market.old) (purse_of wallets.old) pending.old) }
    requires decided { Ok plan.now ≡ decided (asked_by ask.now) seen.now (market_in (lent_of O.held market.old)) }
    ensures acted { HasActed roles.now result (acting (lent_of O.held market.old) (purse_of wallets.old) pending.old)
        (acting (lent_of O.held market.new) (purse_of wallets.new) pending.new)
        (step_of ask.entry.now seen.entry.now (lent_of O.held market.old)) }
    ensures places { KeepsPlaces O.place market.old market.new }
    ensures loans { AreSameLoans wallets.old wallets.new }
{
    let amounts = amounts_of(plan);
    let reply = apply_ask(market, ask, seen, plan, pending);
    move_wallets(wallets, roles, &amounts);
    reply
}

/// Does an instruction on the accounts of one market and on the wallets that it names, in place, and answers its reply;
/// or refuses it, by the first reason that holds against it and with what was read for it, and changes nothing. The
/// accounts are then those of the market that the instruction's step leaves, which is sound; each wallet has moved by
/// what the step takes from it and brings to it; and `pending`, what pending makers' fills are still to take off
/// totals, is what it is there. It takes no memory.
pub fn process<O: StepsOrders>(
    market: &mut LentMarket<'_, O>,
    wallets: &mut LentWallets<'_>,
    ask: &Ask<'_>,
    roles: &Roles,
    terms: &Terms,
    pending: &mut PendingFills,
) -> Reply
    requires sound { AreSound (lent_of O.held market.old) }
    requires wallets { AreWallets roles.now (purse_of wallets.old) }
    requires apart { AreApart roles.now (purse_of wallets.old) }
    requires pending { pending.old ≡ pending_fills_of (market_in (lent_of O.held market.old)).events }
    ensures processed { HasProcessed roles.now result
        (acting (lent_of O.held market.old) (purse_of wallets.old) pending.old)
        (acting (lent_of O.held market.new) (purse_of wallets.new) pending.new)
        (step_of ask.entry.now (seen_by roles.entry.now terms.now (purse_of wallets.old)) (lent_of O.held market.old)) }
    ensures places { KeepsPlaces O.place market.old market.new }
    ensures loans { AreSameLoans wallets.old wallets.new }
{
    let seen = see(wallets, roles, terms);
    let mut answer = Err(Refusal::NoAccount);
    decide_ask(market, ask, &seen, pending, &mut answer);
    match &answer {
        Ok(plan) => carry_out(market, wallets, ask, roles, &seen, plan, pending),
        Err(why) => Reply::Refused(*why),
    }
}
