//! The cells with which a script starts.

ghost use Rattle.std.specs.Prelude.{◌≡◌, IfOk, List, length, map};
ghost use Rattle.std.specs.List.{All};
ghost use Rattle.dex_types.specs.declared.account_bytes.MarketAccounts.{MarketAccounts as MarketAccountsOf};
ghost use Rattle.dex_types.specs.declared.account_bytes.Named.{Named as NamedOf};
ghost use Rattle.dex_types.specs.Accounts.{accounts_of, market_accounts_of, named_of};
ghost use Rattle.dex_types.specs.Rows.{PlainRow, row_of};
ghost use Rattle.dex_accounts.specs.Accepted.{IsAccepted};
ghost use Rattle.dex_accounts.specs.Decoded.{AreSound};
ghost use Rattle.dex_token.specs.TokenAccount.{IsWallet};
ghost use Rattle.dex_cell.specs.CellState as market;
ghost use Rattle.dex_types.specs.declared.limits.Limits.{Limits};
ghost use Rattle.dex_script_types.specs.Facts.{IsStart};
ghost use Rattle.dex_script_types.specs.Places.{ArePlaced};
ghost use Rattle.dex_wallet.specs.CellState as wallet;
ghost use Rattle.dex_wallet.specs.CellState.{IsWalletCell};
ghost use Rattle.dex_wallet.specs.TokenAmount.{held_in};
ghost use Rattle.dex_bank.specs.Opened as first;

use crate::cells::Cells;
use crate::counting::row_counts;
use dex_act::Terms;
use dex_cell::MarketCell;
use dex_script_types::RowList;
use dex_token::WalletRef;
use dex_types::{Accounts, MarketAccounts, Named, NoMemory, Program, add};
use dex_wallet::{Parcel, WalletCell};
use dex_world::RowPlaces;
use std::alloc::Global;

/// The parcel that a token account's amount is. Where the accounts are conserved, the parcels of a mint are together
/// its supply.
fn parcel_in(bytes: &[u8]) -> Parcel
    requires { IsWallet bytes.now }
    ensures { result ≡ held_in bytes.now }
{
    let wallet = WalletRef { bytes };
    Parcel::of_supply(wallet.mint(), wallet.amount())
}

/// The cell of a market's accounts, with room for this many rows.
fn market_cell(alloc: Global, accounts: MarketAccounts, room: usize) -> Result<MarketCell, NoMemory>
    requires sound { AreSound (market_accounts_of accounts) }
    requires accepted { IsAccepted (market_accounts_of accounts) }
    ensures { IfOk result (λ cell. cell ≡ market.new_cell (market_accounts_of accounts) room) }
{
    let coin = parcel_in(&accounts.coin_vault);
    let pc = parcel_in(&accounts.pc_vault);
    MarketCell::new(alloc, accounts, coin, pc, room)
}

/// The cells of all markets, each with as much room as it is told.
fn market_cells(
    alloc: Global,
    markets: Vec<MarketAccounts>,
    rooms: &[usize],
) -> Result<Vec<MarketCell>, NoMemory>
    requires sound { All (λ (accounts : MarketAccountsOf). AreSound (market_accounts_of accounts)) markets.items }
    requires accepted { All (λ (accounts : MarketAccountsOf). IsAccepted (market_accounts_of accounts)) markets.items }
    requires rooms { length rooms.now ≡ length markets.items }
    ensures { IfOk result (λ cells. (rows : List PlainRow)
        → rooms.now ≡ first.market_rooms rows (map market_accounts_of markets.items)
        → cells.items ≡ map (first.market_opened rows) (map market_accounts_of markets.items)) }
{
    let mut cells = Vec::new(alloc);
    let mut place = 0;
    for accounts in markets {
        add(&mut cells, market_cell(alloc, accounts, rooms[place])?)?;
        place += 1;
    }
    Ok(cells)
}

/// The cell of a wallet, with room for this many rows.
fn wallet_cell(alloc: Global, account: Named, room: usize) -> Result<WalletCell, NoMemory>
    requires { IsWallet account.bytes.items }
    ensures opened { IfOk result (λ cell. cell ≡ wallet.new_cell account.address account.bytes.items room) }
    ensures cell { IfOk result IsWalletCell }
{
    let Named { address, bytes } = account;
    let share = parcel_in(&bytes);
    WalletCell::new(alloc, address, bytes, share, room)
}

/// The cells of all wallets, each with as much room as it is told.
fn wallet_cells(
    alloc: Global,
    wallets: Vec<Named>,
    rooms: &[usize],
) -> Result<Vec<WalletCell>, NoMemory>
    requires wallets { All (λ (account : NamedOf). IsWallet account.bytes.items) wallets.items }
    requires rooms { length rooms.now ≡ length wallets.items }
    ensures opened { IfOk result (λ cells. (rows : List PlainRow)
        → rooms.now ≡ first.wallet_rooms rows (map named_of wallets.items)
        → cells.items ≡ map (first.wallet_opened rows) (map named_of wallets.items)) }
    ensures cells { IfOk result (λ cells. All IsWalletCell cells.items) }
{
    let mut cells = Vec::new(alloc);
    let mut place = 0;
    for account in wallets {
        add(&mut cells, wallet_cell(alloc, account, rooms[place])?)?;
        place += 1;
    }
    Ok(cells)
}

/// The cells of all markets and wallets with which a script starts, with room for its rows. The accounts themselves go
/// into them.
pub(crate) fn opened(
    alloc: Global,
    start: Accounts,
    rows: &RowList,
    places: &[RowPlaces],
    program: Program,
) -> Result<Cells, NoMemory>
    requires start { (limits : Limits) × IsStart limits (accounts_of start) }
    requires places { ArePlaced (accounts_of start) (map row_of rows.now) places.now }
    ensures { IfOk result (λ cells. cells ≡ first.opened_with (accounts_of start) (map row_of rows.now) program) }
{
    let rooms = row_counts(alloc, &start, rows, places)?;
    let Accounts {
        mints,
        srm,
        msrm,
        wallets,
        markets,
    } = start;
    let markets = market_cells(alloc, markets, &rooms.markets)?;
    let wallets = wallet_cells(alloc, wallets, &rooms.wallets)?;
    let terms = Terms { srm, msrm, program };
    Ok(Cells {
        mints,
        terms,
        markets,
        wallets,
    })
}
