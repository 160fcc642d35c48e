//! Open-orders accounts, a trader's funds and slots on one market, read and written in place.
#![tactic(auto)]

mod amounts;
mod bits;
pub mod laws;
mod lifecycle;
mod orders_check;
mod orders_ref;
mod orders_view;
mod slots;

pub use amounts::Funds;
pub use lifecycle::{OrdersState, close, init, state_of};
pub use orders_check::check_orders;
pub use orders_ref::OrdersRef;
pub use orders_view::OrdersView;
