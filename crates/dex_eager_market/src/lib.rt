//! A market that pays each fill at once, run beside the one that pays makers when events are consumed: the same rows,
//! plain lists for both sides, and no event that waits.
#![tactic(auto)]

mod accounts;
mod acting;
mod book_list;
mod cancelling;
mod foreseeing;
mod listing;
mod making;
mod market;
mod paying;
mod states;
mod trading;

pub use dex_worth::Worth;
pub use market::EagerMarket;
