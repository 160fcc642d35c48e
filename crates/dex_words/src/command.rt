//! The commands of the program, those on one thread and those on several, and why words are none.

ghost use Rattle.std.specs.Prelude.{◌≡◌, ◌↔◌, IfSome, IsTrue, None};
ghost use Rattle.clap.specs.Words.{kind_of};
ghost use Rattle.dex_words.specs.declared.command.WordsError.TheVariants.{NoMemory as OutOfMemory};
ghost use Rattle.dex_words.specs.declared.command.PlainCommand.{PlainCommand};
ghost use Rattle.dex_words.specs.declared.command.ThreadedCommand.{ThreadedCommand};
ghost use Rattle.dex_words.specs.Positionals.{error_of};
ghost use Rattle.dex_words.specs.Spelling.{IsWithin};
ghost use Rattle.dex_words.specs.Threads.{of_plain, of_threaded};

use clap::error::ErrorKind;
use std::alloc::AllocError;
use thiserror::Error;

/// What the program is asked to do.
#[derive(Clone, Copy, Debug, PartialEq, Eq)]
pub enum Command {
    /// Reads a script, lets its rows act one after the other, and writes the report.
    Replay,
    /// Reads a script, lets its lanes act side by side, each lane's rows in their order, and writes the report.
    Run,
    /// Reads a script, lets its rows act one after the other, and writes the accounts as a dump.
    Dump,
    /// Reads a dump, and writes that it has no finding, or its findings.
    Audit,
    /// Reads a script, lets its rows act one after the other, and writes what each account of each market is worth.
    Worth,
    /// Writes the made script of a number, with this many rows, from 1 to 20,000.
    Make { number: u64, rows: u32 },
    /// Makes that script, replays it, and writes the summary.
    Bulk { number: u64, rows: u32 },
    /// Reads a dump, and writes one whose sides have this many nodes, from 1 to 65,536, and whose event queues hold
    /// this many events, from 1 to 65,535.
    Migrate { nodes: u32, events: u32 },
    /// Reads a script, lets its rows act in their order on this many threads, from 1 to 16, and writes the report.
    Batch { workers: u32 },
}

/// A command on one thread: it waits for nobody.
#[derive(Clone, Copy, Debug, PartialEq, Eq)]
pub enum PlainCommand {
    Replay,
    Dump,
    Audit,
    Worth,
    Make { number: u64, rows: u32 },
    Bulk { number: u64, rows: u32 },
    Migrate { nodes: u32, events: u32 },
}

/// A command on several threads, which may wait for each other.
#[derive(Clone, Copy, Debug, PartialEq, Eq)]
pub enum ThreadedCommand {
    Run,
    Batch { workers: u32 },
}

/// The most rows of a made script.
pub(crate) const MOST_ROWS: u32 = 20_000;
/// The most nodes of a side.
pub(crate) const MOST_NODES: u32 = 65_536;
/// The most events of an event queue.
pub(crate) const MOST_EVENTS: u32 = 65_535;

impl Command {
    /// This command, if it is one on one thread.
    pub fn plain(self) -> Option<PlainCommand>
        ensures some { IfSome result (λ plain. of_plain plain ≡ self) }
        ensures none { result ≡ None → (plain : PlainCommand) → ¬ (of_plain plain ≡ self) }
    {
        match self {
            Command::Replay => Some(PlainCommand::Replay),
            Command::Dump => Some(PlainCommand::Dump),
            Command::Audit => Some(PlainCommand::Audit),
            Command::Worth => Some(PlainCommand::Worth),
            Command::Make { number, rows } => Some(PlainCommand::Make { number, rows }),
            Command::Bulk { number, rows } => Some(PlainCommand::Bulk { number, rows }),
            Command::Migrate { nodes, events } => Some(PlainCommand::Migrate { nodes, events }),
            Command::Run | Command::Batch { workers: _ } => None,
        }
    }

    /// This command, if it is one on several threads.
    pub fn threaded(self) -> Option<ThreadedCommand>
        ensures some { IfSome result (λ threaded. of_threaded threaded ≡ self) }
        ensures none { result ≡ None → (plain : PlainCommand) × (of_plain plain ≡ self) }
    {
        match self {
            Command::Run => Some(ThreadedCommand::Run),
            Command::Batch { workers } => Some(ThreadedCommand::Batch { workers }),
            Command::Replay
            | Command::Dump
            | Command::Audit
            | Command::Worth
            | Command::Make { .. }
            | Command::Bulk { .. }
            | Command::Migrate { .. } => None,
        }
    }
}

impl PlainCommand {
    /// Whether the numbers of the command are within their limits.
    pub fn is_within(self) -> bool
        ensures { IsTrue result ↔ IsWithin (of_plain self) }
    {
        match self {
            PlainCommand::Make { number: _, rows } | PlainCommand::Bulk { number: _, rows } => {
                rows >= 1 && rows <= MOST_ROWS
            }
            PlainCommand::Migrate { nodes, events } => {
                nodes >= 1 && nodes <= MOST_NODES && events >= 1 && events <= MOST_EVENTS
            }
            _ => true,
        }
    }
}

/// Why words gave no command.
#[derive(Clone, Copy, Debug, PartialEq, Eq, Error)]
pub enum WordsError {
    /// The words are no command.
    #[error("the words are no command")]
    Usage,
    /// Memory was wanting.
    #[error("no memory")]
    NoMemory,
}

impl From<AllocError> for WordsError {
    ghost from_gives = { λ _ e. e ≡ OutOfMemory };

    fn from(_error: AllocError) -> WordsError {
        WordsError::NoMemory
    }
}

impl From<clap::Error> for WordsError {
    ghost from_gives = { λ error e. e ≡ error_of (kind_of error) };

    fn from(error: clap::Error) -> WordsError {
        match error.kind() {
            ErrorKind::OutOfMemory => WordsError::NoMemory,
            _ => WordsError::Usage,
        }
    }
}
