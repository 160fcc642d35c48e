//! Sources and sinks over memory, without faults of their own or with listed calls that fail.

pub(crate) mod listed_sink;
pub(crate) mod listed_source;
pub(crate) mod plain_sink;
pub(crate) mod plain_source;
mod schedule;
