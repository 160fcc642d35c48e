//! Why a run has no answer: the line that it writes then, and its status.

ghost use Rattle.std.specs.Prelude.{◌≡◌};
ghost use Rattle.dex_commands.specs.declared.stop.Stop.TheVariants.{NoMemory as OutOfMemory};
ghost use Rattle.dex_commands.specs.Stops.{line_of, status_of, stop_of};

use dex_answers::Status;
use dex_io::ReadAll;
use dex_types::NoMemory;
use thiserror::Error;

/// Why a run has no answer.
#[derive(Clone, Copy, Debug, PartialEq, Eq, Error)]
pub enum Stop {
    #[error("the words are no command")]
    Usage,
    #[error("read failed")]
    ReadFault,
    #[error("input too long")]
    InputTooLong,
    #[error("no memory")]
    NoMemory,
}

impl Stop {
    /// The line that the run writes. It needs no memory.
    #[tactic(auto, unfolding(crate::specs::Ending::usage_line))]
    pub fn line(self) -> &'static [u8]
        ensures { result.now ≡ line_of self }
    {
        match self {
            Stop::Usage =>
                b"usage: dex replay, run, audit, dump, worth, make NUMBER ROWS, bulk NUMBER ROWS, migrate NODES EVENTS or batch WORKERS\n",
            Stop::ReadFault => b"read failed\n",
            Stop::InputTooLong => b"input too long\n",
            Stop::NoMemory => b"no memory\n",
        }
    }

    /// The status that stands.
    pub fn status(self) -> Status
        ensures { result ≡ status_of self }
    {
        match self {
            Stop::Usage => Status::Usage,
            Stop::ReadFault => Status::ReadFault,
            Stop::InputTooLong => Status::InputTooLong,
            Stop::NoMemory => Status::NoMemory,
        }
    }
}

impl From<ReadAll> for Stop {
    ghost from_gives = { λ error stop. stop ≡ stop_of error };

    fn from(error: ReadAll) -> Stop {
        match error {
            ReadAll::Fault => Stop::ReadFault,
            ReadAll::TooLong => Stop::InputTooLong,
            ReadAll::NoMemory => Stop::NoMemory,
        }
    }
}

impl From<NoMemory> for Stop {
    ghost from_gives = { λ _ stop. stop ≡ OutOfMemory };

    fn from(_error: NoMemory) -> Stop {
        Stop::NoMemory
    }
}
