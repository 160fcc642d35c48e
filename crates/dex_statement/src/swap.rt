//! Swap rows.

ghost use Rattle.std.specs.Prelude.{◌≡◌, ◌<◌, ◌+◌};
ghost use Rattle.dex_rows.specs.Records as rows;
ghost use Rattle.dex_statement.specs.declared.forms.Form.TheVariants as form;
ghost use Rattle.dex_statement.specs.Stated as stated;
ghost use Rattle.dex_statement.specs.Statements as statements;
ghost use Rattle.dex_statement.specs.Swaps as swaps;
ghost use Rattle.dex_statement.specs.Telling.{Tells};

use crate::faults::{FaultKind, RowError};
use crate::fields::{address_at, bytes_at, u32_at};
use crate::instruction::InstructionWords;
use crate::parties::Parties;
use crate::statement::Statement;
use dex_rows::addresses::role_word;
use dex_rows::records::{Fields, field_at, field_count};
use dex_types::Address;
use std::alloc::Global;
use std::marker::Model;

/// A leg of a swap row: its market, its wallets, and the instruction's bytes.
#[derive(Debug, Drop)]
pub struct LegWords {
    pub market: Address,
    pub coin: Option<Address>,
    pub pc: Option<Address>,
    pub bytes: Vec<u8>,
}

impl Model for LegWords {
    ghost use Rattle.dex_statement.specs.Stated.{PlainLeg};

    ghost Value = { PlainLeg };

    ghost view = { λ s. record { market = s.market; coin = s.coin; pc = s.pc; bytes = s.bytes.items } };
}

/// What a swap row states: its lane, who signs it, and its two legs.
#[derive(Debug, Drop)]
pub struct SwapWords {
    pub lane: u32,
    pub signer: Address,
    pub first: LegWords,
    pub second: LegWords,
}

impl Model for SwapWords {
    ghost use Rattle.dex_statement.specs.Stated.{PlainSwap};

    ghost Value = { PlainSwap };

    ghost view = { λ s. record { lane = s.lane; signer = s.signer; first = s.first; second = s.second } };
}

impl LegWords {
    /// The leg as an instruction row of this lane and signer, which names no open-orders account, no discount and no
    /// referrer.
    pub fn into_instruction(self, alloc: Global, lane: u32, signer: Address) -> InstructionWords
        ensures { result ≡ stated.leg_words lane signer self }
    {
        InstructionWords {
            lane,
            parties: Parties {
                market: self.market,
                signer,
                named: Vec::new(alloc),
                coin: self.coin,
                pc: self.pc,
                discount: None,
                referrer: None,
            },
            bytes: self.bytes,
        }
    }
}

/// The leg whose market and wallets stand in three fields from a place on, and of these bytes.
#[tactic(auto, unfolding(crate::specs::Swaps::leg_of))]
fn leg_at(row: &Fields<'_>, place: usize, bytes: Vec<u8>) -> Result<LegWords, FaultKind>
    requires { place < 10 }
    ensures { result ≡ swaps.leg_of (rows.field_at row.now place) (rows.field_at row.now (place + 1))
        (rows.field_at row.now (place + 2)) bytes.items }
{
    let market = address_at(row, place)?;
    let coin = role_word(field_at(row, place + 1)).ok_or(FaultKind::BadLabel)?;
    let pc = role_word(field_at(row, place + 2)).ok_or(FaultKind::BadLabel)?;
    Ok(LegWords {
        market,
        coin,
        pc,
        bytes,
    })
}

/// What a `swap` row states, whose legs have their instructions' bytes in base64.
#[inline(never)]
#[tactic(auto, unfolding(crate::specs::Swaps::swap_row))]
pub(crate) fn swap_row(alloc: Global, row: &Fields<'_>) -> Result<Statement, RowError>
    ensures { Tells result (statements.stated form.Swap row.now) }
{
    if field_count(row) != 11 {
        return Err(RowError::Fault(FaultKind::FieldCount));
    }
    let lane = u32_at(row, 1)?;
    let first_bytes = bytes_at(alloc, row, 6)?;
    let second_bytes = bytes_at(alloc, row, 10)?;
    let signer = address_at(row, 2)?;
    let first = leg_at(row, 3, first_bytes)?;
    let second = leg_at(row, 7, second_bytes)?;
    Ok(Statement::Swap(SwapWords {
        lane,
        signer,
        first,
        second,
    }))
}
