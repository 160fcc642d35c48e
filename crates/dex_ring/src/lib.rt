//! The event queue, a ring of pending events, read and written in place.
#![tactic(auto)]

pub mod amounts;
mod event_bytes;
mod making;
mod pending_fills;
mod places;
mod ring_check;
mod ring_ref;
mod ring_view;

pub use making::{blank, made_size};
pub use pending_fills::PendingFills;
pub use ring_check::check_events;
pub use ring_ref::RingRef;
pub use ring_view::RingView;
