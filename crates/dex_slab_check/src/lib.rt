//! The check of a side's account: whether its bytes keep the ten rules of slabs, else one that they break.
#![tactic(auto)]

mod check;
mod check_free;
mod check_nodes;
mod check_tree;
mod numbers;
mod slab_fault;

pub use check::{is_slab_size, is_well_formed};
pub use slab_fault::SlabFault;
