//! What can be wrong with a row of a script.

ghost use Rattle.std.specs.Prelude.{◌≡◌};
ghost use Rattle.dex_statement.specs.Faults as faults;
ghost use Rattle.dex_statement.specs.declared.faults.RowError.TheVariants.{Fault, NoMemory as OutOfMemory};

use dex_types::NoMemory;
use std::alloc::{AllocError, AllocFailed};
use thiserror::Error;

/// Why a row is refused where all its words are well formed, known and within the limits.
#[derive(Clone, Copy, Debug, PartialEq, Eq, Error)]
pub enum SetupCode {
    /// A setup row after an instruction row, or in a script that begins with a dump.
    #[error("a setup row comes too late")]
    Late,
    /// The SRM mint has not 6 decimals, or the MSRM mint not 0.
    #[error("a discount mint has other decimals")]
    Decimals,
    /// A mint's supply would be 2^64 or more.
    #[error("a mint's supply is too large")]
    Supply,
    /// The two mints of a market are one.
    #[error("a market has one mint")]
    OneMint,
    /// A market's data is no InitializeMarket instruction, or its fee rate is 100 basis points or more.
    #[error("a market's data makes no market")]
    Data,
    /// A side has no nodes, or the event queue no room.
    #[error("a capacity is 0")]
    Capacity,
    /// A `program` row that is a second one, or that another row than those of a dump stands before.
    #[error("a program row stands behind another row")]
    Program,
}

/// What is wrong with a row of a script. The variants stand by number, from 1.
#[derive(Clone, Copy, Debug, PartialEq, Eq, Error)]
pub enum FaultKind {
    /// A field has a byte outside 32 to 126.
    #[error("a field has a byte outside 32 to 126")]
    BadCsv,
    /// The first field is that of no row, or a word that must be one of a list is not.
    #[error("a word is not known")]
    UnknownRow,
    /// The row has more or fewer fields, or words, than its form.
    #[error("the row has another number of fields or words")]
    FieldCount,
    /// A field or word that must be a number, or base64 text, is none.
    #[error("a field or word is no number, or no base64 text")]
    BadNumber,
    /// A field or word that must be an address word is none, or a market's address has another last byte than 0.
    #[error("a field or word is no address word")]
    BadLabel,
    /// A mint, market or wallet is not declared in an earlier row.
    #[error("a mint, market or wallet is not declared")]
    UnknownLabel,
    /// An address is declared twice, or a discount mint is named twice.
    #[error("an address is declared twice")]
    Duplicate,
    /// A limit of scripts is passed.
    #[error("a limit is passed")]
    OverLimit,
    /// The row can not be taken where it stands, or makes no account.
    #[error("{0}")]
    SetupRefused(SetupCode),
    /// The two markets of a swap are one, a wallet stands twice in it, or a leg's data is another instruction than a
    /// take.
    #[error("a swap has one market, a wallet twice, or a leg that is no take")]
    BadSwap,
    /// A swap in a script that is to act in batches.
    #[error("a swap does not act in a batch")]
    NoBatch,
}

impl SetupCode {
    /// The code's number, from 1 to 7.
    pub fn number(self) -> u8
        ensures { result ≡ faults.code_number self }
    {
        match self {
            SetupCode::Late => 1,
            SetupCode::Decimals => 2,
            SetupCode::Supply => 3,
            SetupCode::OneMint => 4,
            SetupCode::Data => 5,
            SetupCode::Capacity => 6,
            SetupCode::Program => 7,
        }
    }
}

impl FaultKind {
    /// The kind's number, from 1 to 11.
    pub fn number(self) -> u8
        ensures { result ≡ faults.kind_number self }
    {
        match self {
            FaultKind::BadCsv => 1,
            FaultKind::UnknownRow => 2,
            FaultKind::FieldCount => 3,
            FaultKind::BadNumber => 4,
            FaultKind::BadLabel => 5,
            FaultKind::UnknownLabel => 6,
            FaultKind::Duplicate => 7,
            FaultKind::OverLimit => 8,
            FaultKind::SetupRefused(_) => 9,
            FaultKind::BadSwap => 10,
            FaultKind::NoBatch => 11,
        }
    }

    /// The number of the setup code, and 0 where the kind has none.
    pub fn code(self) -> u8
        ensures { result ≡ faults.code_of self }
    {
        match self {
            FaultKind::SetupRefused(code) => code.number(),
            FaultKind::BadCsv
            | FaultKind::UnknownRow
            | FaultKind::FieldCount
            | FaultKind::BadNumber
            | FaultKind::BadLabel
            | FaultKind::UnknownLabel
            | FaultKind::Duplicate
            | FaultKind::OverLimit
            | FaultKind::BadSwap
            | FaultKind::NoBatch => 0,
        }
    }
}

/// Why a row could not be taken.
#[derive(Clone, Copy, Debug, PartialEq, Eq, Error)]
pub enum RowError {
    /// The row has this fault, and none with a lower number.
    #[error("{0}")]
    Fault(FaultKind),
    /// Memory was wanting.
    #[error("no memory")]
    NoMemory,
}

impl From<FaultKind> for RowError {
    ghost from_gives = { λ kind e. e ≡ Fault kind };

    fn from(kind: FaultKind) -> RowError {
        RowError::Fault(kind)
    }
}

impl From<NoMemory> for RowError {
    ghost from_gives = { λ _ e. e ≡ OutOfMemory };

    fn from(_error: NoMemory) -> RowError {
        RowError::NoMemory
    }
}

impl<T: Drop> From<AllocFailed<T>> for RowError {
    ghost from_gives = { λ _ e. e ≡ OutOfMemory };

    fn from(_error: AllocFailed<T>) -> RowError {
        RowError::NoMemory
    }
}

impl From<AllocError> for RowError {
    ghost from_gives = { λ _ e. e ≡ OutOfMemory };

    fn from(_error: AllocError) -> RowError {
        RowError::NoMemory
    }
}
