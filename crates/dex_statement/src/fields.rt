//! What the fields of a row write.

ghost use Rattle.std.specs.Prelude.{◌≡◌, ◌<◌, ◌^◌};
ghost use Rattle.dex_rows.specs.Addresses.{address_of};
ghost use Rattle.dex_rows.specs.Base64.{base64_of};
ghost use Rattle.dex_rows.specs.Numbers.{number_of};
ghost use Rattle.dex_rows.specs.Records as rows;
ghost use Rattle.dex_statement.specs.declared.faults.FaultKind.TheVariants.{BadLabel, BadNumber};
ghost use Rattle.dex_statement.specs.Faults.{found_or};
ghost use Rattle.dex_statement.specs.Telling.{TellsAs};

use crate::faults::{FaultKind, RowError};
use dex_rows::addresses::address_word;
use dex_rows::base64_words::base64_word;
use dex_rows::numbers::u32_word;
use dex_rows::records::{Fields, field_at};
use dex_types::Address;
use std::alloc::Global;

/// The address that a field names.
pub(crate) fn address_at(row: &Fields<'_>, place: usize) -> Result<Address, FaultKind>
    requires { place < 12 }
    ensures { result ≡ found_or (address_of (rows.field_at row.now place)) BadLabel }
{
    address_word(field_at(row, place)).ok_or(FaultKind::BadLabel)
}

/// The number of 32 bits that a field writes.
pub(crate) fn u32_at(row: &Fields<'_>, place: usize) -> Result<u32, FaultKind>
    requires { place < 12 }
    ensures { result ≡ found_or (number_of (2 ^ 32) (rows.field_at row.now place)) BadNumber }
{
    u32_word(field_at(row, place)).ok_or(FaultKind::BadNumber)
}

/// The bytes that a field writes in base64.
pub(crate) fn bytes_at(alloc: Global, row: &Fields<'_>, place: usize) -> Result<Vec<u8>, RowError>
    requires { place < 12 }
    ensures { TellsAs (λ bytes. bytes.items) result (found_or (base64_of (rows.field_at row.now place)) BadNumber) }
{
    Ok(base64_word(alloc, field_at(row, place))?.ok_or(FaultKind::BadNumber)?)
}
