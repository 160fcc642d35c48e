//! What a row does, once it was decided, with an index of the market's open-orders accounts.

ghost use Rattle.std.specs.Prelude.{◌≡◌, Ok, map};
ghost use Rattle.dex_types.specs.Accounts.{market_accounts_of, orders_account_of};
ghost use Rattle.dex_types.specs.Rows.{row_of};
ghost use Rattle.dex_ring.specs.PendingFills.{pending_fills_of};
ghost use Rattle.dex_accounts.specs.Decoded.{AreSound, market_in};
ghost use Rattle.dex_history.specs.Journal.{request_of, row_step};
ghost use Rattle.dex_plan.specs.Given.{market_of};
ghost use Rattle.dex_plan.specs.Plans.{decided};
ghost use Rattle.dex_step.specs.Acting.{HasStepped, accounts_with};
ghost use Rattle.dex_index.specs.Reached.{IsIndexOf};

use crate::index::AccountIndex;
use crate::indexed_orders::IndexedOrders;
use dex_lent::LentMarket;
use dex_plan::{Plan, ask_of};
use dex_ring::PendingFills;
use dex_step::{StepsOrders, apply_ask};
use dex_types::{Address, MarketAccounts, OrdersAccount, Reply, Row, Seen};

/// Does what was decided on accounts that are lent one by one, whatever holds the open-orders accounts: as many
/// parameters as a market has accounts, since the checker ties no borrow that a record takes from a field of a record.
#[inline]
fn apply_lent<O: StepsOrders>(
    address: Address,
    authority: Address,
    market: &mut [u8],
    coin_vault: &mut [u8],
    pc_vault: &mut [u8],
    requests: &mut [u8],
    events: &mut [u8],
    bids: &mut [u8],
    asks: &mut [u8],
    orders: &mut O,
    row: &Row,
    seen: &Seen,
    plan: &Plan,
    pending: &mut PendingFills,
) -> Reply
    requires sound { AreSound (accounts_with address authority market.old coin_vault.old pc_vault.old requests.old
        events.old bids.old asks.old (O.held orders.old)) }
    requires decided { Ok plan.now ≡ decided (request_of (row_of row.now)) seen.now (market_in (accounts_with address
        authority market.old coin_vault.old pc_vault.old requests.old events.old bids.old asks.old
        (O.held orders.old))) }
    requires pending { pending.old ≡ pending_fills_of (market_in (accounts_with address authority market.old
        coin_vault.old pc_vault.old requests.old events.old bids.old asks.old (O.held orders.old))).events }
    ensures stepped { let old = accounts_with address authority market.old coin_vault.old pc_vault.old requests.old
        events.old bids.old asks.old (O.held orders.old) in
        let new = accounts_with address authority market.new coin_vault.new pc_vault.new requests.new events.new
        bids.new asks.new (O.held orders.new) in
        HasStepped old new result pending.new (row_step (row_of row.entry.now) seen.entry.now (market_in old)) }
    ensures place { O.place orders.new ≡ O.place orders.old }
{
    apply_ask(
        &mut LentMarket {
            address,
            authority,
            market,
            coin_vault,
            pc_vault,
            requests,
            events,
            bids,
            asks,
            orders,
        },
        &ask_of(row),
        seen,
        plan,
        pending,
    )
}

/// Does what was decided on accounts that are lent one by one, with an index of all open-orders accounts. The
/// parameters are those of `apply_lent`.
#[inline]
fn apply_apart(
    address: Address,
    authority: Address,
    market: &mut [u8],
    coin_vault: &mut [u8],
    pc_vault: &mut [u8],
    requests: &mut [u8],
    events: &mut [u8],
    bids: &mut [u8],
    asks: &mut [u8],
    orders: &mut [OrdersAccount],
    index: &AccountIndex,
    row: &Row,
    seen: &Seen,
    plan: &Plan,
    pending: &mut PendingFills,
) -> Reply
    requires indexed { IsIndexOf index.now (map orders_account_of orders.old) }
    requires sound { AreSound (accounts_with address authority market.old coin_vault.old pc_vault.old requests.old
        events.old bids.old asks.old (map orders_account_of orders.old)) }
    requires decided { Ok plan.now ≡ decided (request_of (row_of row.now)) seen.now (market_in (accounts_with address
        authority market.old coin_vault.old pc_vault.old requests.old events.old bids.old asks.old
        (map orders_account_of orders.old))) }
    requires pending { pending.old ≡ pending_fills_of (market_in (accounts_with address authority market.old
        coin_vault.old pc_vault.old requests.old events.old bids.old asks.old
        (map orders_account_of orders.old))).events }
    ensures stepped { let old = accounts_with address authority market.old coin_vault.old pc_vault.old requests.old
        events.old bids.old asks.old (map orders_account_of orders.old) in
        let new = accounts_with address authority market.new coin_vault.new pc_vault.new requests.new events.new
        bids.new asks.new (map orders_account_of orders.new) in
        HasStepped old new result pending.new (row_step (row_of row.entry.now) seen.entry.now (market_in old)) }
    ensures indexed { IsIndexOf index.now (map orders_account_of orders.new) }
{
    apply_lent(
        address,
        authority,
        market,
        coin_vault,
        pc_vault,
        requests,
        events,
        bids,
        asks,
        &mut IndexedOrders {
            accounts: orders,
            index,
        },
        row,
        seen,
        plan,
        pending,
    )
}

/// What `apply` of `dex_step` does, on accounts with an index of the open-orders accounts among them, which is one of
/// them still.
pub fn apply(
    accounts: &mut MarketAccounts,
    index: &AccountIndex,
    row: &Row,
    seen: &Seen,
    plan: &Plan,
    pending: &mut PendingFills,
) -> Reply
    requires sound { AreSound (market_accounts_of accounts.old) }
    requires indexed { IsIndexOf index.now (market_accounts_of accounts.old).orders }
    requires decided { Ok plan.now ≡ decided (request_of (row_of row.now)) seen.now (market_of accounts.old) }
    requires pending { pending.old ≡ pending_fills_of (market_of accounts.old).events }
    ensures stepped { HasStepped (market_accounts_of accounts.old) (market_accounts_of accounts.new) result pending.new
        (row_step (row_of row.entry.now) seen.entry.now (market_of accounts.old)) }
    ensures indexed { IsIndexOf index.now (market_accounts_of accounts.new).orders }
{
    apply_apart(
        accounts.address,
        accounts.authority,
        &mut accounts.market,
        &mut accounts.coin_vault,
        &mut accounts.pc_vault,
        &mut accounts.requests,
        &mut accounts.events,
        &mut accounts.bids,
        &mut accounts.asks,
        &mut accounts.orders,
        index,
        row,
        seen,
        plan,
        pending,
    )
}
