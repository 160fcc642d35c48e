//! A side of the book as a critbit tree in the bytes of its account, changed in place node by node.
#![tactic(auto)]

mod behind;
mod insert;
pub mod laws;
mod making;
pub mod node_reads;
mod node_writes;
pub mod nodes;
mod pieces;
mod pool;
mod refused;
mod remove;
mod rewriting;
mod search;
mod set_lots;
mod slab_ref;
mod slab_view;
mod view_writes;
mod walks;

pub use making::{blank, made_size, side_flags};
pub use slab_ref::SlabRef;
pub use slab_view::SlabView;
