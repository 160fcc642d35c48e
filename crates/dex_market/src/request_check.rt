//! The check of a request queue, by the rules that need that account alone.

ghost use Rattle.std.specs.Prelude.{◌≡◌, ◌≤◌, ◌↔◌, length, IsOk};
ghost use Rattle.std.specs.Result.{result_err};
ghost use Rattle.dex_market.specs.RequestQueue.{IsRequestQueue};
ghost use Rattle.dex_market.specs.Faults.{request_flags_rule, requests_fault};

use crate::faults::{frame_rule, word_rule};
use bitflags::Flags;
use dex_fields::get_u64;
use dex_fields::request_queue::{ACCOUNT_FLAGS, COUNT, HEAD};
use dex_types::{AccountFault, AccountFlags};

/// The least length of a request queue: its header and the seven bytes at its end.
const LEAST: usize = 44;

/// Whether the bytes are a request queue, by the rules that need this account alone; else the first rule that is
/// broken, by its kind and then by its place.
///
/// In the order of their kinds the rules are: there are at least 44 bytes; `serum` stands at the front and `padding` at
/// the end; the flags are 9; head and count are 0. What its ring holds is not read. A place in the text that is above
/// the largest u32 is reported as that.
pub fn check_requests(bytes: &[u8]) -> Result<(), AccountFault>
    ensures ok { IsOk result ↔ IsRequestQueue bytes.now }
    ensures fault { result_err result ≡ requests_fault bytes.now }
{
    match requests_fault(bytes) {
        Some(fault) => Err(fault),
        None => Ok(()),
    }
}

#[tactic(auto, unfolding(crate::specs::Faults::requests_fault))]
fn requests_fault(bytes: &[u8]) -> Option<AccountFault>
    ensures { result ≡ requests_fault bytes.now }
{
    if bytes.len() < LEAST {
        return Some(AccountFault::size(bytes.len(), LEAST));
    }
    frame_rule(bytes)
        .or(request_flags_rule(bytes))
        .or(word_rule(bytes, HEAD, 0))
        .or(word_rule(bytes, COUNT, 0))
}

fn request_flags_rule(bytes: &[u8]) -> Option<AccountFault>
    requires { 44 ≤ length bytes.now }
    ensures { result ≡ request_flags_rule bytes.now }
{
    let flags = AccountFlags::from_bits_retain(get_u64(bytes, ACCOUNT_FLAGS));
    if flags == AccountFlags::REQUEST_QUEUE_ACCOUNT {
        None
    } else {
        Some(AccountFault::flags(flags.bits(), AccountFlags::REQUEST_QUEUE_ACCOUNT.0))
    }
}
