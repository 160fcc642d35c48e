//! The rules that an audit holds one market's accounts against, each told by a call of its own.
#![tactic(auto)]

mod book;
mod finding;
mod gathered;
mod locks;
mod market;
mod misheld;
mod own;
mod pending;
mod resting;
mod slots;
mod taken;
mod totals;

pub use finding::Finding;
pub use gathered::{Gathered, gather};
pub use market::{Rule, tell_rule};
pub use totals::tell_differs;
