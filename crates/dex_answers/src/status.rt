//! How a run of the program ends.

ghost use Rattle.std.specs.Prelude.{◌≡◌};
ghost use Rattle.dex_answers.specs.ExitCodes.{exit_code};

/// How a run of the program ended.
#[derive(Clone, Copy, Debug, PartialEq, Eq)]
pub enum Status {
    /// The report, the dump, the made script, the summary, or that an audit found nothing, was written.
    Ok,
    /// The words are no command.
    Usage,
    /// A row of the script is faulty.
    ScriptRefused,
    /// A row of the dump is faulty.
    DumpRefused,
    /// The accounts of the dump have findings.
    AuditFailed,
    /// A read failed.
    ReadFault,
    /// A write failed.
    WriteFault,
    /// The input is longer than the limits allow (`bytes` of `Limits`).
    InputTooLong,
    /// Memory was wanting.
    NoMemory,
    /// A market has more orders or pending events than would fit.
    MigrateRefused,
}

impl Status {
    /// The exit status of the process.
    pub fn code(self) -> u8
        ensures { result ≡ exit_code self }
    {
        match self {
            Status::Ok => 0,
            Status::Usage => 1,
            Status::ScriptRefused => 2,
            Status::DumpRefused | Status::AuditFailed => 3,
            Status::ReadFault => 4,
            Status::WriteFault => 5,
            Status::InputTooLong => 6,
            Status::NoMemory => 7,
            Status::MigrateRefused => 8,
        }
    }
}
