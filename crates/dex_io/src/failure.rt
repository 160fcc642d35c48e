//! Why a read or a write gave up.

ghost use Rattle.std.specs.Prelude.{◌≡◌, ◌≤◌};
ghost use Rattle.dex_io.specs.Faults.{Rose, next_count};
ghost use Rattle.dex_io.specs.declared.failure.ReadAll.TheVariants.{Fault, NoMemory as OutOfMemory};

use std::alloc::AllocError;
use thiserror::Error;

/// A read or a write that failed, and took nothing.
#[derive(Clone, Copy, Debug, PartialEq, Eq, Error)]
#[error("the call failed")]
pub struct Failed;

/// Counts one more fault.
pub(crate) fn fault(faults: &mut u64) -> Failed
    ensures one_more { faults.new ≡ next_count faults.old }
    ensures rose { Rose faults.old faults.new }
    ensures later { faults.old ≤ faults.new }
{
    *faults = faults.saturating_add(1);
    Failed
}

/// Why the whole of a source could not be read.
#[derive(Clone, Copy, Debug, PartialEq, Eq, Error)]
pub enum ReadAll {
    /// A read failed.
    #[error("read failed")]
    Fault,
    /// The source has more bytes than the limit.
    #[error("input too long")]
    TooLong,
    /// Memory was wanting.
    #[error("no memory")]
    NoMemory,
}

impl From<Failed> for ReadAll {
    ghost from_gives = { λ _ e. e ≡ Fault };

    fn from(_error: Failed) -> ReadAll {
        ReadAll::Fault
    }
}

impl From<AllocError> for ReadAll {
    ghost from_gives = { λ _ e. e ≡ OutOfMemory };

    fn from(_error: AllocError) -> ReadAll {
        ReadAll::NoMemory
    }
}

/// A text was not written whole.
#[derive(Clone, Copy, Debug, PartialEq, Eq, Error)]
#[error("the writing stopped after {sent} bytes")]
pub struct WriteStop {
    /// How many bytes of the text the sink took, from its front.
    pub sent: usize,
}
