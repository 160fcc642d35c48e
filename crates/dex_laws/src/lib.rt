//! Laws of the book: of order ids, traders, meeting, posting and locks. Each function does nothing, and its
//! contract is a law of the definitions that the exchange's contracts cite.
#![tactic(auto)]

pub mod book;
pub mod fills;
pub mod ids;
pub mod locks;
pub mod matching;
pub mod meeting;
pub mod posting;
pub mod spending;
pub mod traders;
