//! What lanes leave side by side is what their rows leave one after the other, in some order.
#![tactic(auto)]

pub mod laws;
