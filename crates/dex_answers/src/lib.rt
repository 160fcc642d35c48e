//! What each command but `worth` answers to the bytes that it read: a status, and the text that is written under it.
#![tactic(auto)]

mod audit;
mod bulk;
mod clean;
mod dump;
mod laws;
mod lines;
mod make;
mod migrate;
mod refused;
mod replay;
mod status;
mod told;

pub use audit::audit_answer;
pub use bulk::bulk_answer;
pub use dump::dump_answer;
pub use laws::{
    both_legs_of_a_swap_take_or_neither, what_a_run_leaves_is_told,
    what_suits_a_command_is_answered,
};
pub use make::make_answer;
pub use migrate::migrate_answer;
pub use refused::no_script;
pub use replay::replay_answer;
pub use status::Status;
pub use told::StatusText;
