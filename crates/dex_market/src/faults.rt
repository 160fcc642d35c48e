//! Rules that the market account and the request queue share.

ghost use Rattle.std.specs.Prelude.{◌≡◌, ◌<◌, ◌≤◌, ◌^◌, length};
ghost use Rattle.dex_fields.specs.Bytes.{IsWithin};
ghost use Rattle.dex_market.specs.Faults.{frame_rule, word_rule};

use dex_fields::{Field, frame_difference, get_u64};
use dex_types::AccountFault;

/// The first byte that differs from `serum` at the front or from `padding` at the end.
pub fn frame_rule(bytes: &[u8]) -> Option<AccountFault>
    requires { 12 ≤ length bytes.now }
    ensures { result ≡ frame_rule bytes.now }
{
    frame_difference(bytes).map(|d| AccountFault::text(d.place, d.found, d.wanted))
}

/// The word, where it is not what it must be.
pub fn word_rule(bytes: &[u8], field: Field, wanted: u64) -> Option<AccountFault>
    requires within { IsWithin field bytes.now }
    requires wide { field.len ≡ 8 }
    requires low { field.at < 2 ^ 32 }
    ensures { result ≡ word_rule bytes.now field wanted }
{
    let found = get_u64(bytes, field);
    if found == wanted {
        None
    } else {
        Some(AccountFault::word(field.at, found, wanted))
    }
}
