//! The cells of wallets, and how a row moves them.

ghost use Rattle.std.specs.Prelude.{◌≡◌, ◌<◌, ◌≤◌, ◌+◌, length, map, slice_set};
ghost use Rattle.std.specs.List.{All};
ghost use Rattle.dex_types.specs.declared.addresses.Address.{Address as AddressOf};
ghost use Rattle.dex_types.specs.declared.movements.MoveKind.TheVariants.{Debit, Credit};
ghost use Rattle.dex_types.specs.Rows.{row_of};
ghost use Rattle.dex_types.specs.Wallets.{address_seen, amount_at};
ghost use Rattle.dex_token.specs.TokenAccount.{wallet_words};
ghost use Rattle.dex_wallet.specs.CellState.{HasSpare, balance_of};
ghost use Rattle.dex_cell.specs.Paying.{parcel_of};
ghost use Rattle.dex_act.specs.Wallets as wallets;
ghost use Rattle.dex_act.specs.Wallets.{AreApart, AreOf, AreOfOneMint, AtPlace, CanBePaid, CanCredit};
ghost use Rattle.dex_act.specs.Wallets.{CanGetPc, CanPay, CanTake, IsRoleAt, NamesFor, amount_in};
ghost use Rattle.dex_act.specs.Wallets.{cell_credited, cell_debited, cell_moved, pc_credited, role_moved};

use crate::places::Asked;
use dex_cell::{Deposits, Payouts};
use dex_movements::Amounts;
use dex_types::{Address, Row, WalletSeen, is_same};
use dex_wallet::{Parcel, WalletCell};

/// A row takes an amount out of the cell at a place.
fn debit_at(cells: &mut [WalletCell], place: usize, row: &Row, amount: u64) -> Parcel
    requires within { place < length cells.old }
    requires some { 1 ≤ amount }
    requires spare { AtPlace place cells.old HasSpare }
    requires funds { AtPlace place cells.old (λ cell. amount ≤ balance_of cell.bytes) }
    ensures parcel { AtPlace place cells.old
        (λ cell. result ≡ record { mint = (wallet_words cell.bytes).mint; amount = amount }) }
    ensures moved { AtPlace place cells.old
        (λ cell. cells.new ≡ slice_set cells.old place (cell_moved (row_of row.entry.now) Debit amount cell)) }
{
    let cell = &mut cells[place];
    cell.debit(row.market, row.lane, row.number, amount)
}

/// A row takes an amount out of the cell that a role names, as a parcel: none of nothing.
fn debit(
    cells: &mut [WalletCell],
    row: &Row,
    role: &Option<WalletSeen>,
    place: usize,
    amount: u64,
) -> Option<Parcel>
    requires apart { AreApart cells.old }
    requires here { IsRoleAt cells.old (address_seen role.now) place }
    requires named { NamesFor amount role.now }
    requires can { All (λ cell. CanTake (amount_at cell.address role.now amount) cell) cells.old }
    ensures parcel { (mint : AddressOf) → AreOf mint role.entry.now amount cells.old
        → result ≡ parcel_of mint amount }
    ensures moved { cells.new ≡ map (role_moved (row_of row.entry.now) Debit role.entry.now amount) cells.old }
{
    if amount == 0 {
        None
    } else {
        Some(debit_at(cells, place, row, amount))
    }
}

/// A row puts a parcel into the cell that a role names.
fn credit(
    cells: &mut [WalletCell],
    row: &Row,
    role: &Option<WalletSeen>,
    place: usize,
    parcel: Option<Parcel>,
)
    requires apart { AreApart cells.old }
    requires here { IsRoleAt cells.old (address_seen role.now) place }
    requires can { CanCredit role.now parcel cells.old }
    ensures { cells.new ≡ map (role_moved (row_of row.entry.now) Credit role.entry.now (amount_in parcel)) cells.old }
{
    match parcel {
        Some(parcel) => {
            let cell = &mut cells[place];
            cell.credit(row.market, row.lane, row.number, parcel);
        }
        None => {}
    }
}

/// The deposits of a row, as parcels.
pub(crate) fn debits(cells: &mut [WalletCell], asked: &Asked, amounts: &Amounts) -> Deposits
    requires { CanPay asked.now.seen.now asked.now.places.now amounts.now.coin_in amounts.now.pc_in cells.old }
    ensures coin { (mint : AddressOf) → AreOf mint asked.now.seen.now.coin amounts.now.coin_in cells.old
        → result.coin ≡ parcel_of mint amounts.now.coin_in }
    ensures pc { (mint : AddressOf) → AreOf mint asked.now.seen.now.pc amounts.now.pc_in cells.old
        → result.pc ≡ parcel_of mint amounts.now.pc_in }
    ensures moved { cells.new ≡ map (cell_debited (row_of asked.now.row.now) asked.now.seen.now
        amounts.now.coin_in amounts.now.pc_in) cells.old }
{
    let Asked { row, seen, places } = asked;
    let coin = debit(cells, row, &seen.coin, places.coin, amounts.coin_in);
    let pc = debit(cells, row, &seen.pc, places.pc, amounts.pc_in);
    Deposits { coin, pc }
}

/// Whether the wallets of two roles are one.
fn is_one(first: &Option<WalletSeen>, second: &Option<WalletSeen>) -> bool
    ensures { result ≡ wallets.is_one first.now second.now }
{
    match (first, second) {
        (Some(wallet), Some(other)) => is_same(wallet.address, other.address),
        _ => false,
    }
}

/// Two parcels of one mint in one.
fn join(first: Option<Parcel>, second: Option<Parcel>) -> Option<Parcel>
    requires { AreOfOneMint first second }
    ensures { (mint : AddressOf) →
        first ≡ parcel_of mint (amount_in first) → second ≡ parcel_of mint (amount_in second) →
        result ≡ parcel_of mint (amount_in first + amount_in second) }
{
    match (first, second) {
        (Some(first), Some(second)) => Some(first.join(second)),
        (Some(first), None) => Some(first),
        (None, second) => second,
    }
}

/// The payouts of a row in the quote token. Where the `pc` and the `referrer` wallet are one, it is credited once.
fn credit_pc(cells: &mut [WalletCell], asked: &Asked, pc: Option<Parcel>, referrer: Option<Parcel>)
    requires { CanGetPc asked.now.seen.now asked.now.places.now pc referrer cells.old }
    ensures { cells.new ≡ map (pc_credited (row_of asked.now.row.now) asked.now.seen.now
        (amount_in pc) (amount_in referrer)) cells.old }
{
    let Asked { row, seen, places } = asked;
    if is_one(&seen.pc, &seen.referrer) {
        let both = join(pc, referrer);
        credit(cells, row, &seen.pc, places.pc, both);
    } else {
        credit(cells, row, &seen.pc, places.pc, pc);
        credit(cells, row, &seen.referrer, places.referrer, referrer);
    }
}

/// The payouts of a row, into the cells of its roles.
pub(crate) fn credits(cells: &mut [WalletCell], asked: &Asked, payouts: Payouts)
    requires { CanBePaid asked.now.seen.now asked.now.places.now payouts.coin payouts.pc payouts.referrer cells.old }
    ensures { cells.new ≡ map (cell_credited (row_of asked.now.row.now) asked.now.seen.now
        (amount_in payouts.coin) (amount_in payouts.pc) (amount_in payouts.referrer)) cells.old }
{
    let Payouts { coin, pc, referrer } = payouts;
    credit(cells, asked.row, &asked.seen.coin, asked.places.coin, coin);
    credit_pc(cells, asked, pc, referrer);
}
