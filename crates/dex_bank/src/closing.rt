//! What cells leave where they are closed.

ghost use Rattle.std.specs.Prelude.{◌≡◌, ◌≤◌, [], IfErr, IfOk, length, map, vec_len, vec_capacity};
ghost use Rattle.dex_types.specs.Accounts.{market_accounts_of, named_of};
ghost use Rattle.dex_cell.specs.CellState.{MarketCellState};
ghost use Rattle.dex_state.specs.Outcomes.{market_journal_of, outcome_of, wallet_journal_of};
ghost use Rattle.dex_bank.specs.Closed as left;

use crate::cells::Cells;
use crate::room::{OutcomeParts, Room};
use dex_cell::MarketCell;
use dex_state::{MarketJournal, Outcome, WalletJournal};
use dex_types::{Accounts, MarketAccounts, Named, NoMemory};
use dex_wallet::WalletCell;
use std::alloc::Global;

/// What a market's cell leaves.
fn market_left(cell: MarketCell) -> (MarketAccounts, MarketJournal)
    ensures accounts { market_accounts_of result.0 ≡ cell.accounts }
    ensures journal { market_journal_of result.1 ≡ left.market_journal_in cell }
{
    let (accounts, entries) = cell.into_parts();
    let address = accounts.address;
    (accounts, MarketJournal { address, entries })
}

/// What the cells of markets leave, written into the room for it.
fn markets_left(
    cells: Vec<MarketCell>,
    room: OutcomeParts<MarketAccounts, MarketJournal>,
) -> OutcomeParts<MarketAccounts, MarketJournal>
    requires accounts { (room.accounts.items ≡ []) × (vec_len cells ≤ vec_capacity room.accounts) }
    requires journals { (room.journals.items ≡ []) × (vec_len cells ≤ vec_capacity room.journals) }
    ensures accounts { map market_accounts_of result.accounts.items
        ≡ map (λ (cell : MarketCellState). cell.accounts) cells.items }
    ensures journals { map market_journal_of result.journals.items ≡ map left.market_journal_in cells.items }
{
    let OutcomeParts {
        mut accounts,
        mut journals,
    } = room;
    for cell in cells {
        let (own, journal) = market_left(cell);
        accounts.push_reserved(own);
        journals.push_reserved(journal);
    }
    OutcomeParts { accounts, journals }
}

/// What a wallet's cell leaves.
fn wallet_left(cell: WalletCell) -> (Named, WalletJournal)
    ensures account { named_of result.0 ≡ left.account_in cell }
    ensures journal { wallet_journal_of result.1 ≡ left.wallet_journal_in cell }
{
    let address = cell.address();
    let (bytes, entries) = cell.into_parts();
    (Named { address, bytes }, WalletJournal { address, entries })
}

/// What the cells of wallets leave, written into the room for it.
fn wallets_left(
    cells: Vec<WalletCell>,
    room: OutcomeParts<Named, WalletJournal>,
) -> OutcomeParts<Named, WalletJournal>
    requires accounts { (room.accounts.items ≡ []) × (vec_len cells ≤ vec_capacity room.accounts) }
    requires journals { (room.journals.items ≡ []) × (vec_len cells ≤ vec_capacity room.journals) }
    ensures accounts { map named_of result.accounts.items ≡ map left.account_in cells.items }
    ensures journals { map wallet_journal_of result.journals.items ≡ map left.wallet_journal_in cells.items }
{
    let OutcomeParts {
        mut accounts,
        mut journals,
    } = room;
    for cell in cells {
        let (own, journal) = wallet_left(cell);
        accounts.push_reserved(own);
        journals.push_reserved(journal);
    }
    OutcomeParts { accounts, journals }
}

/// What all cells leave, written into the room for it.
pub(crate) fn left_by(cells: Cells, room: Room) -> Outcome
    requires { (length cells.markets ≤ room.markets) × (length cells.wallets ≤ room.wallets) }
    ensures { outcome_of result ≡ left.closed cells }
{
    let Cells {
        mints,
        terms,
        markets,
        wallets,
    } = cells;
    let Room {
        of_markets,
        of_wallets,
    } = room;
    let markets = markets_left(markets, of_markets);
    let wallets = wallets_left(wallets, of_wallets);
    Outcome {
        accounts: Accounts {
            mints,
            srm: terms.srm,
            msrm: terms.msrm,
            wallets: wallets.accounts,
            markets: markets.accounts,
        },
        markets: markets.journals,
        wallets: wallets.journals,
    }
}

/// The accounts and the journals of all cells, or all cells as they were where there is no memory.
pub(crate) fn closed(alloc: Global, cells: Cells) -> Result<Outcome, Cells>
    ensures outcome { IfOk result (λ outcome. outcome_of outcome ≡ left.closed cells) }
    ensures refused { IfErr result (λ same. same ≡ cells) }
{
    match Room::reserve(alloc, cells.markets.len(), cells.wallets.len()) {
        Ok(room) => Ok(left_by(cells, room)),
        Err(NoMemory) => Err(cells),
    }
}
