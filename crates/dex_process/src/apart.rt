//! One instruction on accounts that lie apart, as C hands them in. A caller learns what is behind a record of loans
//! only where a function of plain slices builds it: hence so many arguments.

ghost use Rattle.std.specs.Prelude.{◌≡◌};
ghost use Rattle.dex_accounts.specs.Decoded.{AreSound, market_in};
ghost use Rattle.dex_lent.specs.Flat.{accounts_in};
ghost use Rattle.dex_process.specs.Process.{HasProcessed, acting, purse_with, seen_by, step_of};
ghost use Rattle.dex_purse.specs.Purse.{AreApart, AreWallets};
ghost use Rattle.dex_ring.specs.PendingFills.{pending_fills_of};
ghost use Rattle.dex_step.specs.Acting.{accounts_with};

use crate::processing::{Terms, process};
use dex_lent::{FlatOrders, LentMarket};
use dex_plan::Ask;
use dex_purse::{LentWallets, Roles};
use dex_ring::PendingFills;
use dex_types::{Address, Reply};

/// What `process` does, on the pieces of a market and of four wallets; `orders` are the open-orders accounts one after
/// another, each as 32 bytes of its address and 3,228 of its data. The arguments are many since the checker follows no
/// record whose borrows are handed on from fields of another.
pub fn process_apart(
    address: Address,
    authority: Address,
    market: &mut [u8],
    coin_vault: &mut [u8],
    pc_vault: &mut [u8],
    requests: &mut [u8],
    events: &mut [u8],
    bids: &mut [u8],
    asks: &mut [u8],
    orders: &mut [u8],
    first_address: Address,
    first: &mut [u8],
    second_address: Address,
    second: &mut [u8],
    third_address: Address,
    third: &mut [u8],
    fourth_address: Address,
    fourth: &mut [u8],
    ask: &Ask<'_>,
    roles: &Roles,
    terms: &Terms,
    pending: &mut PendingFills,
) -> Reply
    requires sound { AreSound (accounts_with address authority market.old coin_vault.old pc_vault.old requests.old
        events.old bids.old asks.old (accounts_in orders.old)) }
    requires wallets { AreWallets roles.now (purse_with first_address first.old second_address second.old
        third_address third.old fourth_address fourth.old) }
    requires apart { AreApart roles.now (purse_with first_address first.old second_address second.old
        third_address third.old fourth_address fourth.old) }
    requires pending { pending.old ≡ pending_fills_of (market_in (accounts_with address authority market.old
        coin_vault.old pc_vault.old requests.old events.old bids.old asks.old (accounts_in orders.old))).events }
    ensures { let held = accounts_with address authority market.old coin_vault.old pc_vault.old requests.old events.old
        bids.old asks.old (accounts_in orders.old) in
        let purse = purse_with first_address first.old second_address second.old third_address third.old fourth_address
        fourth.old in
        let left = accounts_with address authority market.new coin_vault.new pc_vault.new requests.new events.new
        bids.new asks.new (accounts_in orders.new) in
        let moved = purse_with first_address first.new second_address second.new third_address third.new fourth_address
        fourth.new in
        HasProcessed roles.now result (acting held purse pending.old) (acting left moved pending.new)
        (step_of ask.entry.now (seen_by roles.entry.now terms.now purse) held) }
{
    process(
        &mut LentMarket {
            address,
            authority,
            market,
            coin_vault,
            pc_vault,
            requests,
            events,
            bids,
            asks,
            orders: &mut FlatOrders { bytes: orders },
        },
        &mut LentWallets {
            first_address,
            first,
            second_address,
            second,
            third_address,
            third,
            fourth_address,
            fourth,
        },
        ask,
        roles,
        terms,
        pending,
    )
}
