//! Accounts of another size: every side of the book with this many nodes, and every event queue with room for this many
//! events.
#![tactic(auto)]

mod faults;
mod laws;
mod markets;
mod migrating;
mod queues;
mod sides;
mod too_small;

pub use faults::{MigrateError, MigrateFault, MigrateWhat};
pub use laws::{
    migrated_accounts_are_accepted, migrated_accounts_have_the_same_findings,
    migrated_accounts_stand_for_the_market_with_other_capacities,
};
pub use migrating::migrate;
