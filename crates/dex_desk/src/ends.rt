//! How a session ends.

ghost use Rattle.std.specs.Prelude.{◌≡◌};
ghost use Rattle.dex_desk.specs.Talks.{last_line, status_of};

use dex_answers::Status;

/// Why a session is over.
#[derive(Clone, Copy, Debug, PartialEq, Eq)]
pub enum Over {
    /// The input has ended.
    Input,
    /// A read failed.
    ReadFault,
    /// A line, or a set-up, is longer than 1,099,511,627,776 bytes.
    TooLong,
    /// Memory was wanting.
    NoMemory,
}

impl Over {
    /// The status of the session.
    pub fn status(self) -> Status
        ensures { result ≡ status_of self }
    {
        match self {
            Over::Input => Status::Ok,
            Over::ReadFault => Status::ReadFault,
            Over::TooLong => Status::InputTooLong,
            Over::NoMemory => Status::NoMemory,
        }
    }

    /// What is said last.
    pub fn last_line(self) -> &'static [u8]
        ensures { result.now ≡ last_line self }
    {
        match self {
            Over::Input => b"",
            Over::ReadFault => b"read failed\n",
            Over::TooLong => b"input too long\n",
            Over::NoMemory => b"no memory\n",
        }
    }
}

/// Why a session cannot go on.
#[derive(Clone, Copy, Debug, PartialEq, Eq)]
pub enum Stop {
    /// Memory was wanting.
    NoMemory,
    /// A write failed.
    WriteFault,
}
