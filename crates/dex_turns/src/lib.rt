//! The items of lanes at a bank: each market and each wallet has a gate, and an item acts when it has the turns of all
//! that it names.
#![tactic(auto)]

mod acts;
mod alone;
mod at;
mod bank;
mod both;
mod legs;
mod outline;
mod pair;
mod seat;
mod stamped_record;
mod submitting;
mod turns;
mod two_turns;

pub use bank::{Bank, BankParts};
pub use outline::Outline;
pub use pair::{Pair, plan_pair};
pub use seat::LaneSeat;
