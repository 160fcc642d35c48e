//! What is wrong with a dump.

ghost use Rattle.std.specs.Prelude.{◌≡◌};
ghost use Rattle.dex_dump.specs.declared.faults.DumpError.TheVariants.{NoMemory as OutOfMemory, Refused};

use dex_types::{AccountFault, Address, NoMemory};
use thiserror::Error;

/// The first faulty row of a dump, counted from 1, and what is wrong with it.
#[derive(Clone, Copy, Debug, PartialEq, Eq)]
pub struct DumpFault {
    pub row: u32,
    /// The account that has the fault; None where the row itself is none that a dump may have there.
    pub account: Option<Address>,
    /// The lowest fault of the account. Of a row it is kind 1, with zeros.
    pub fault: AccountFault,
}

/// Why a dump could not be read.
#[derive(Clone, Copy, Debug, PartialEq, Eq, Error)]
pub enum DumpError {
    /// It has this fault, and none in an earlier row or account, or of a lower kind or place.
    #[error("a faulty dump")]
    Refused(DumpFault),
    /// Memory was wanting.
    #[error("no memory")]
    NoMemory,
}

impl From<DumpFault> for DumpError {
    ghost from_gives = { λ fault e. e ≡ Refused fault };

    fn from(fault: DumpFault) -> DumpError {
        DumpError::Refused(fault)
    }
}

impl From<NoMemory> for DumpError {
    ghost from_gives = { λ _ e. e ≡ OutOfMemory };

    fn from(_error: NoMemory) -> DumpError {
        DumpError::NoMemory
    }
}
