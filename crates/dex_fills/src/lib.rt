//! Meeting a side of the book: what a taker takes of it, what that moves, and the events that it leaves.
#![tactic(auto)]

pub mod event_kinds;
pub mod fills;
pub mod met;
mod pending;
pub mod prices;
pub mod resting;
pub mod ring_events;
mod side_meeting;
mod side_posting;
mod side_walk;
pub mod taking;
mod wants;

pub use dex_ring::PendingFills;
pub use met::Met;
pub use pending::{pending_fills, with_fills};
pub use side_meeting::meet_side;
pub use side_posting::post_or_boot;
pub use side_walk::{Prospect, foresee};
pub use wants::{MeetingTerms, Sums, Want};
