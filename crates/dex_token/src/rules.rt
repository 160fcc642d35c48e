//! Rules on the bytes of token accounts and mints.

ghost use Rattle.std.specs.Prelude.{◌≡◌, ◌+◌, ◌<◌, ◌^◌, length};
ghost use Rattle.dex_fields.specs.Bytes.{IsWithin, end_of};
ghost use Rattle.dex_token.specs.Faults.{byte_rule, first_set, token_fault, zero_rule};

use dex_fields::{Field, get_u8};
use dex_types::AccountFault;

/// A byte that is not what it must be, as a fault.
fn token_fault(place: usize, found: u8, wanted: u8) -> AccountFault
    requires { place < 2 ^ 32 }
    ensures { result ≡ token_fault place found wanted }
{
    AccountFault {
        kind: 10,
        place: place as u32,
        found: u128::from(found),
        wanted: u128::from(wanted),
    }
}

/// The one byte of the field, where it is not what it must be.
pub fn byte_rule(bytes: &[u8], field: Field, wanted: u8) -> Option<AccountFault>
    requires within { IsWithin field bytes.now }
    requires wide { field.len ≡ 1 }
    requires low { field.at < 2 ^ 32 }
    ensures { result ≡ byte_rule bytes.now field wanted }
{
    let found = get_u8(bytes, field);
    if found == wanted {
        None
    } else {
        Some(token_fault(field.at, found, wanted))
    }
}

/// The first that is not zero, of bytes that begin at the place `start`.
fn first_set(start: usize, bytes: &[u8]) -> Option<AccountFault>
    requires { start + length bytes.now < 2 ^ 32 }
    ensures { result ≡ first_set start bytes.now }
{
    for (i, byte) in bytes.iter().enumerate() {
        let found = *byte;
        if found != 0 {
            return Some(token_fault(start + i, found, 0));
        }
    }
    None
}

/// The first byte of the field that is not zero.
pub fn zero_rule(bytes: &[u8], field: Field) -> Option<AccountFault>
    requires within { IsWithin field bytes.now }
    requires low { end_of field < 2 ^ 32 }
    ensures { result ≡ zero_rule bytes.now field }
{
    first_set(field.at, &bytes[field.at..field.at + field.len])
}
