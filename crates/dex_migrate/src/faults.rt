//! Why accounts cannot be migrated.

ghost use Rattle.std.specs.Prelude.{◌≡◌};
ghost use Rattle.dex_migrate.specs.declared.faults.MigrateError.TheVariants.{NoMemory as OutOfMemory};

use dex_types::{Address, NoMemory};
use thiserror::Error;

/// What does not fit: the bids, the asks, or the pending events of a market.
#[derive(Clone, Copy, Debug, PartialEq, Eq)]
pub enum MigrateWhat {
    Bids,
    Asks,
    Events,
}

/// A market of which more rests or is pending than would fit: how much it is, and how much would fit.
#[derive(Clone, Copy, Debug, PartialEq, Eq)]
pub struct MigrateFault {
    pub market: Address,
    pub what: MigrateWhat,
    pub needed: u32,
    pub given: u32,
}

/// Why accounts were not migrated.
#[derive(Clone, Copy, Debug, PartialEq, Eq, Error)]
pub enum MigrateError {
    /// The first market, and of it bids before asks before events, that would not fit.
    #[error("a market would not fit")]
    TooSmall(MigrateFault),
    /// There is not so much memory.
    #[error("no memory")]
    NoMemory,
}

impl From<NoMemory> for MigrateError {
    ghost from_gives = { λ _ error. error ≡ OutOfMemory };

    fn from(_error: NoMemory) -> MigrateError {
        MigrateError::NoMemory
    }
}
