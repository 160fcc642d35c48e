//! Whom an instruction row names.

ghost use Rattle.std.specs.Prelude.{◌≡◌, ◌≤◌, ◌∷◌, [], length};
ghost use Rattle.dex_statement.specs.Parties as parties_meant;
ghost use Rattle.dex_statement.specs.Telling.{TellsIn};

use crate::faults::{FaultKind, RowError};
use crate::words::first_word;
use dex_rows::addresses::{read_address, read_role};
use dex_rows::records::{Fields, field_at};
use dex_types::Address;
use std::alloc::Global;
use std::marker::Model;

/// Whom an instruction row names: its market, who signs it, the open-orders accounts, and the wallets by their roles.
#[derive(Debug, Drop)]
pub struct Parties {
    pub market: Address,
    pub signer: Address,
    pub named: Vec<Address>,
    pub coin: Option<Address>,
    pub pc: Option<Address>,
    pub discount: Option<Address>,
    pub referrer: Option<Address>,
}

impl Model for Parties {
    ghost use Rattle.dex_statement.specs.Stated.{PlainParties};

    ghost Value = { PlainParties };

    ghost view = { λ s. record {
      market = s.market;
      signer = s.signer;
      named = s.named.items;
      coin = s.coin;
      pc = s.pc;
      discount = s.discount;
      referrer = s.referrer;
    } };
}

impl Parties {
    /// Nobody, to be filled. It takes no memory.
    pub fn none(alloc: Global) -> Parties {
        Parties {
            market: Address([0; 32]),
            signer: Address([0; 32]),
            named: Vec::new(alloc),
            coin: None,
            pc: None,
            discount: None,
            referrer: None,
        }
    }

    /// The open-orders accounts, which are taken out.
    pub fn take_named(&mut self) -> Vec<Address>
        ensures named { result.items ≡ self.old.named }
        ensures left { self.new ≡ record self.old { named = [] } }
    {
        let alloc = *self.named.allocator();
        std::mem::replace(&mut self.named, Vec::new(alloc))
    }
}

/// Reads whom an instruction row names, in its fields from MARKET to REFERRER. All faults of these fields are of one
/// kind, so that their order is of no account.
#[tactic(auto, unfolding(crate::specs::Parties::parties_of))]
pub(crate) fn read_parties(row: &Fields<'_>, parties: &mut Parties) -> Result<(), RowError>
    ensures { TellsIn result parties.new (parties_meant.parties_of row.now) }
{
    if read_address(field_at(row, 2), &mut parties.market)
        && read_address(field_at(row, 3), &mut parties.signer)
        && read_role(field_at(row, 5), &mut parties.coin)
        && read_role(field_at(row, 6), &mut parties.pc)
        && read_role(field_at(row, 7), &mut parties.discount)
        && read_role(field_at(row, 8), &mut parties.referrer)
    {
        read_named(field_at(row, 4), &mut parties.named)
    } else {
        Err(RowError::Fault(FaultKind::BadLabel))
    }
}

// How many spaces a field has.
fn spaces_in(field: &[u8]) -> usize
    ensures { result ≤ length field.now }
{
    let mut count = 0;
    'bytes: for place in 0..field.len() {
        if field[place] == b' ' {
            count += 1;
        }
    }
    count
}

/// Reads the open-orders accounts that a field names: none for `-`, or address words with one space between two.
#[tactic(auto, unfolding(crate::specs::Parties::named_of))]
fn read_named(field: &[u8], named: &mut Vec<Address>) -> Result<(), RowError>
    ensures { TellsIn result named.new.items (parties_meant.named_of field.now) }
{
    named.clear();
    if let [b'-'] = field {
        return Ok(());
    }
    named.reserve_exact(spaces_in(field) + 1)?;
    let mut rest = field;
    'words: while let Some((word, behind)) = first_word(rest) {
        push_address(word, named)?;
        rest = behind;
    }
    push_address(rest, named)
}

/// Adds the address that a word names.
fn push_address(word: &[u8], named: &mut Vec<Address>) -> Result<(), RowError>
    ensures { TellsIn result named.new.items (parties_meant.named_behind named.old.items (word.now ∷ [])) }
{
    let mut address = Address([0; 32]);
    if !read_address(word, &mut address) {
        return Err(RowError::Fault(FaultKind::BadLabel));
    }
    named.push(address)?;
    Ok(())
}
