//! Where the market and the wallets of a row stand among cells.

ghost use Rattle.std.specs.Prelude.{◌≡◌, IfSome, true};
ghost use Rattle.std.specs.List.{All};
ghost use Rattle.dex_types.specs.declared.addresses.Address.{Address as AddressOf};
ghost use Rattle.dex_types.specs.Rows.{row_of};
ghost use Rattle.dex_types.specs.Wallets.{row_wallets};
ghost use Rattle.dex_act.specs.Wallets.{ArePlacesAmong, IsAt, IsNamed, IsRoleAt, is_among, wallet_places};
ghost use Rattle.dex_bank.specs.Cells.{CanAct, is_market};
ghost use Rattle.dex_bank.specs.Places.{ArePlacesIn, StandsAt};
ghost use Rattle.dex_bank.specs.Stepping.{IsFirstAt};

use crate::cells::Cells;
use dex_act::{AsRow, WalletPlaces};
use dex_cell::MarketCell;
use dex_types::{Address, Row, is_same};
use dex_wallet::WalletCell;
use dex_world::RowPlaces;

/// The place of the market of a row, and those of the wallets that it names.
#[derive(Clone, Copy)]
pub(crate) struct Standing {
    pub(crate) market: usize,
    pub(crate) wallets: WalletPlaces,
}

impl Standing {
    /// Those of a row: as it comes with them, or else looked up.
    pub(crate) fn of<W: AsRow>(cells: &Cells, row: &W) -> Standing
        requires row { CanAct (row_of (W.is row.now)) cells.now }
        requires placed { IfSome (W.at row.now) (ArePlacesIn cells.now (row_of (W.is row.now))) }
        ensures { StandsAt cells.now (row_of (W.is row.entry.now)) result.market result.wallets }
    {
        match row.places() {
            Some(places) => Standing::told(&places),
            None => Standing::among(cells, row.row()),
        }
    }

    // As the places of a row tell.
    fn told(places: &RowPlaces) -> Standing
        ensures { result ≡ record { market = places.now.market; wallets = wallet_places places.now.wallets } }
    {
        Standing {
            market: places.market as usize,
            wallets: WalletPlaces::of(&places.wallets),
        }
    }

    // Looked up among all cells.
    fn among(cells: &Cells, row: &Row) -> Standing
        requires { CanAct (row_of row.now) cells.now }
        ensures { StandsAt cells.now (row_of row.entry.now) result.market result.wallets }
    {
        Standing {
            market: market_cell_place(&cells.markets, row.market),
            wallets: wallets_among(&cells.wallets, row),
        }
    }
}

/// The place of the first market of an address.
fn market_cell_place(markets: &[MarketCell], address: Address) -> usize
    requires { is_market address markets.now ≡ true }
    ensures { IsFirstAt address markets.now result }
{
    for place in 0..markets.len() {
        if is_same(address, markets[place].accounts().address) {
            return place;
        }
    }
    // By the condition one of them has the address.
    unreachable!()
}

/// The place of the cell of an address that is among these.
fn wallet_cell_place(cells: &[WalletCell], address: Address) -> usize
    requires { is_among address cells.now ≡ true }
    ensures { IsAt address cells.now result }
{
    for place in 0..cells.len() {
        if is_same(address, cells[place].address()) {
            return place;
        }
    }
    // By the condition one of them has the address.
    unreachable!()
}

/// The place of the cell of a role's wallet among these; 0 for a role that names none.
fn role_place(cells: &[WalletCell], role: &Option<Address>) -> usize
    requires { IsNamed cells.now role.now }
    ensures { IsRoleAt cells.entry.now role.entry.now result }
{
    match role {
        Some(address) => wallet_cell_place(cells, *address),
        None => 0,
    }
}

/// Where the wallets that a row names stand among these, looked up.
fn wallets_among(cells: &[WalletCell], row: &Row) -> WalletPlaces
    requires { All (λ (wallet : AddressOf). is_among wallet cells.now ≡ true) (row_wallets (row_of row.now)) }
    ensures { ArePlacesAmong cells.entry.now (row_of row.entry.now) result }
{
    WalletPlaces {
        coin: role_place(cells, &row.coin),
        pc: role_place(cells, &row.pc),
        discount: role_place(cells, &row.discount),
        referrer: role_place(cells, &row.referrer),
    }
}
