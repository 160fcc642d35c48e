//! A row that acts on a market's cell.

ghost use Rattle.dex_cell.specs.CellState.{HasSpare, IsFor, IsMarketCell, answer_on};
ghost use Rattle.dex_cell.specs.Paying.{parcel_of};
ghost use Rattle.dex_history.specs.Journal.{Agree, Sees, asked_of};
ghost use Rattle.dex_types.specs.Rows.{row_of};
ghost use Rattle.dex_types.specs.Wallets.{address_seen};
ghost use Rattle.std.specs.Prelude.{◌≡◌, IsTrue, Ok};

use dex_cell::{MarketCell, Payouts, Plan};
use dex_market::MarketRef;
use dex_types::{Address, Row, Seen, WalletSeen};
use dex_wallet::Parcel;

/// The wallet of an address among these; one that is not among them has nothing, and is nobody's and of no mint.
fn wallet_at(wallets: &[WalletSeen], address: Address) -> WalletSeen
    ensures { result.address ≡ address }
{
    for wallet in wallets {
        if wallet.address == address {
            return WalletSeen { address, ..*wallet };
        }
    }
    WalletSeen {
        address,
        mint: Address([0; 32]),
        owner: Address([0; 32]),
        balance: 0,
    }
}

/// The wallet that a role names.
pub(crate) fn role(wallets: &[WalletSeen], named: Option<Address>) -> Option<WalletSeen>
    ensures { address_seen result ≡ named }
{
    match named {
        Some(address) => Some(wallet_at(wallets, address)),
        None => None,
    }
}

/// Whether two roles of one wallet see one wallet.
fn agree(first: Option<WalletSeen>, second: Option<WalletSeen>) -> bool
    ensures { IsTrue result → Agree first second }
{
    match (first, second) {
        (Some(wallet), Some(other)) => wallet.address != other.address || wallet == other,
        _ => true,
    }
}

/// Whether what is seen for a row has one wallet wherever two roles name one.
pub(crate) fn sees(row: &Row, seen: &Seen) -> bool
    requires coin { address_seen seen.now.coin ≡ row.now.coin }
    requires pc { address_seen seen.now.pc ≡ row.now.pc }
    requires discount { address_seen seen.now.discount ≡ row.now.discount }
    requires referrer { address_seen seen.now.referrer ≡ row.now.referrer }
    ensures { IsTrue result → Sees (asked_of (row_of row.entry.now)) seen.now }
{
    let coin_pc = agree(seen.coin, seen.pc);
    let coin_discount = agree(seen.coin, seen.discount);
    let coin_referrer = agree(seen.coin, seen.referrer);
    let pc_discount = agree(seen.pc, seen.discount);
    let pc_referrer = agree(seen.pc, seen.referrer);
    let discount_referrer = agree(seen.discount, seen.referrer);
    coin_pc & coin_discount & coin_referrer & pc_discount & pc_referrer & discount_referrer
}

/// So much of a mint, and none of nothing.
fn parcel(mint: Address, amount: u64) -> Option<Parcel>
    ensures { result ≡ parcel_of mint amount }
{
    if amount == 0 {
        None
    } else {
        Some(Parcel::of_supply(mint, amount))
    }
}

/// A parcel ends here.
fn end(parcel: Option<Parcel>) {
    if let Some(parcel) = parcel {
        parcel.give_up();
    }
}

/// Does a row as it was decided.
#[tactic(auto, unfolding(dex_accounts::specs::Decoded::market_in))]
fn accept(cell: &mut MarketCell, row: &Row, seen: &Seen, plan: Plan)
    requires row { IsFor row.now seen.now cell.old }
    requires cell { IsMarketCell cell.old }
    requires spare { HasSpare cell.old }
    requires decided { Ok plan ≡ answer_on row.now seen.now cell.old }
{
    let deposit = plan.deposit();
    let market = MarketRef {
        bytes: &cell.accounts().market,
    };
    let coin = parcel(market.coin_mint(), deposit.coin);
    let pc = parcel(market.pc_mint(), deposit.pc);
    let (_, payouts) = cell.apply(row, seen, plan, coin, pc);
    let Payouts { coin, pc, referrer } = payouts;
    end(coin);
    end(pc);
    end(referrer);
}

/// Decides a row, and does it or writes down that it is refused.
pub(crate) fn act(cell: &mut MarketCell, row: &Row, seen: &Seen)
    requires row { IsFor row.now seen.now cell.old }
    requires cell { IsMarketCell cell.old }
    requires spare { HasSpare cell.old }
{
    match cell.decide(row, seen) {
        Ok(plan) => accept(cell, row, seen, plan),
        Err(refusal) => cell.refuse(row, seen, refusal),
    }
}
