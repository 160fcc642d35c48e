//! Why no script could be read.

ghost use Rattle.std.specs.Prelude.{◌≡◌};
ghost use Rattle.dex_script.specs.declared.fault.ScriptError.TheVariants.{NoMemory as OutOfMemory};

use dex_audit::Finding;
use dex_dump::DumpFault;
use dex_types::NoMemory;
use thiserror::Error;

/// Why no script could be read.
#[derive(Debug, Drop, Error)]
pub enum ScriptError {
    /// The first faulty row, counted from 1, the number of the lowest of its faults, and that of the setup code, 0
    /// where it has none.
    #[error("script refused row {row}: {kind}")]
    Row { row: u32, kind: u8, code: u8 },
    /// The dump at the start is faulty.
    #[error("a faulty dump")]
    Dump(DumpFault),
    /// The accounts of the dump at the start have these findings.
    #[error("accounts with findings")]
    Audit(Vec<Finding>),
    /// Memory was wanting.
    #[error("no memory")]
    NoMemory,
}

impl From<NoMemory> for ScriptError {
    ghost from_gives = { λ _ e. e ≡ OutOfMemory };

    fn from(_error: NoMemory) -> ScriptError {
        ScriptError::NoMemory
    }
}
