//! Open-orders accounts one after another in a caller's bytes.

ghost use Rattle.std.specs.Prelude.{◌≡◌, ◌<◌, ◌≤◌, ◌+◌, ◌*◌, IsSome, MatchOption, None, Some, drop, length, take};
ghost use Rattle.dex_accounts.specs.Owners.{IsFirst, bytes_at};
ghost use Rattle.dex_lent.specs.Flat.{IsDataAt, accounts_in, record_in};

use crate::orders::OrdersAccounts;
use dex_fields::{Field, get_addr};
use dex_types::{Address, is_same};

/// How many bytes an account takes here: 32 of its address, and then 3,228 of its data.
pub const RECORD: usize = 3_260;

/// How many bytes of it are its data.
pub const DATA: usize = 3_228;

/// Where an account's address stands in its record.
const ADDRESS: Field = Field { at: 0, len: 32 };

/// Open-orders accounts that lie one after another, each as 32 bytes of its address and 3,228 of its data. Bytes behind
/// the last whole account are none's.
#[derive(Drop)]
pub struct FlatOrders<'a> {
    pub bytes: &'a mut [u8],
}

/// The record of an account.
fn record_at(bytes: &[u8], place: usize) -> &[u8]
    requires { 3260 * place + 3260 ≤ length bytes.now }
    ensures { result.now ≡ record_in place bytes.now }
{
    &bytes[RECORD * place..RECORD * place + RECORD]
}

/// Where the data of an account begins.
fn start_of(bytes: &[u8], place: usize) -> usize
    requires { 3260 * place + 3260 ≤ length bytes.now }
    ensures { result ≡ 3260 * place + 32 }
{
    let _ = bytes.len();
    RECORD * place + 32
}

/// The data of an account.
fn data_of(bytes: &[u8], place: usize) -> &[u8]
    requires { 3260 * place + 3260 ≤ length bytes.now }
    ensures { result.now ≡ take 3228 (drop (3260 * place + 32) bytes.now) }
{
    let at = start_of(bytes, place);
    &bytes[at..at + DATA]
}

/// The place of the first account of the address, if it is one of these.
fn place_in(bytes: &[u8], address: Address) -> Option<usize>
    ensures { MatchOption result (bytes_at address (accounts_in bytes.now) ≡ None)
        (IsFirst address (accounts_in bytes.now)) }
{
    for place in 0..bytes.len() / RECORD {
        if is_same(address, Address(get_addr(record_at(bytes, place), ADDRESS))) {
            return Some(place);
        }
    }
    None
}

/// Where the data of the account of an address begins that is one of these.
pub fn data_at(bytes: &[u8], address: Address) -> usize
    requires { IsSome (bytes_at address (accounts_in bytes.now)) }
    ensures { IsDataAt address bytes.now result }
{
    match place_in(bytes, address) {
        Some(place) => start_of(bytes, place),
        None => unreachable!(),
    }
}

impl<'a> OrdersAccounts for FlatOrders<'a> {
    ghost held = { λ orders. accounts_in orders.bytes.now };

    ghost place = { λ orders. orders.bytes.ghost_name };

    fn find(&self, address: Address) -> Option<&[u8]> {
        let place = place_in(self.bytes, address)?;
        Some(data_of(self.bytes, place))
    }
}
