//! The sides of the book, by the one contract that all above them cite: a side as a sorted list, and one over the bytes
//! of its account.
#![tactic(auto)]

mod list_side;
mod places;

/// A side of the book over the bytes of its account, changed in place: the view of `dex_slab`.
pub use dex_slab::SlabView as SlabSide;
pub use list_side::ListSide;
