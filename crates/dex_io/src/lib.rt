//! Where the program's bytes come from and where they go: a source, a sink, and what reads and writes all; and the
//! pace at which its rows go on.
//!
//! A call answers a failure only where the object's count of faults rose in that call.
#![tactic(auto)]

mod failure;
mod memory;
mod pace;
mod reading;
mod standard;
mod writing;

pub use dex_types::NoMemory;
pub use failure::{Failed, ReadAll, WriteStop};
pub use memory::listed_sink::MemSink;
pub use memory::listed_source::MemSource;
pub use memory::plain_sink::SureSink;
pub use memory::plain_source::SureSource;
pub use pace::{NoPace, Pace};
pub use reading::{Source, read_all};
pub use standard::{StdSink, StdSource};
pub use writing::{Sink, write_all};
