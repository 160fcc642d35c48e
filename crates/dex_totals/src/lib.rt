//! What rests, what is pending and what accounts have, counted and summed.
#![tactic(auto)]

mod amounts;
mod by_owner;
mod counts;
mod held;
mod locks;
mod tally;
mod tokens;
mod traders;
mod weights;

pub use amounts::{Amount, sum_amounts};
pub use by_owner::{ByOwner, events_by_owner, orders_by_owner};
pub use counts::{Counts, all_finals, all_resting, side_of};
pub use held::{id_held, is_held};
pub use locks::{lock_of, sum_locked};
pub use tally::{mark, times};
pub use tokens::Token;
pub use traders::{Owners, opened};
pub use weights::{Weight, sum_held, sum_pending};
