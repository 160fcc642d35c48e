//! What is wrong with a swap whose markets and wallets are declared.

ghost use Rattle.std.specs.Prelude.{◌≡◌};
ghost use Rattle.dex_script.specs.Rows as spec;

use dex_instruction::decode;
use dex_script_types::is_role;
use dex_statement::{InstructionWords, Parties};
use dex_types::{Address, Ix, is_same};

/// Whether two legs are no swap of two markets: their markets are one, a wallet stands twice, or a leg is another
/// instruction than a take.
pub fn is_bad_swap(first: &InstructionWords, second: &InstructionWords) -> bool
    ensures { result ≡ spec.is_bad_swap first.now second.now }
{
    is_same(first.parties.market, second.parties.market)
        || is_named_twice(&first.parties, &second.parties)
        || is_no_leg(first)
        || is_no_leg(second)
}

/// Whether a wallet stands twice among the roles of two legs.
fn is_named_twice(first: &Parties, second: &Parties) -> bool
    ensures { result ≡ spec.is_named_twice first.now second.now }
{
    is_named_among(first.coin, &[first.pc, second.coin, second.pc])
        || is_named_among(first.pc, &[second.coin, second.pc])
        || is_named_among(second.coin, &[second.pc])
}

/// Whether a role is that of a wallet of one of these roles.
fn is_named_among(role: Option<Address>, roles: &[Option<Address>]) -> bool
    ensures { result ≡ spec.is_named_among role roles.now }
{
    roles.iter().any(|other| is_one_wallet(role, *other))
}

/// Whether two roles are those of one wallet.
fn is_one_wallet(role: Option<Address>, other: Option<Address>) -> bool
    ensures { result ≡ spec.is_one_wallet role other }
{
    match role {
        None => false,
        Some(wallet) => is_role(other, wallet),
    }
}

/// Whether a leg's data is another instruction than a take. Data that is none is allowed: its row is refused.
fn is_no_leg(words: &InstructionWords) -> bool
    ensures { result ≡ spec.is_no_leg words.now }
{
    match decode(&words.bytes) {
        Err(_) | Ok(Ix::SendTake { .. }) => false,
        Ok(_) => true,
    }
}
