//! Cancels that find an account's orders by its 128 slots, and walk along no side of the book.
#![tactic(auto)]

mod applying;
mod counting;
mod deciding;
mod finding;
mod first_own;
mod laws;
mod owned;
mod pruning;
mod taken;

pub use applying::apply_cancel_by_slots;
pub use deciding::decide_cancel_by_slots;
pub use laws::{an_accounts_slots_name_its_orders, the_slots_tell_an_owners_orders};
pub use owned::Owner;
