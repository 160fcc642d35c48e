//! The types that the crates of the exchange share, and the definitions of the book that all contracts cite.
//!
//! Amounts are native token amounts, lots are multiples of a market's lot sizes, and prices count
//! quote (pc) lots per base (coin) lot, as in the Serum DEX, version 3.
#![tactic(auto)]

mod account_bytes;
mod adding;
mod addresses;
mod client_ids;
mod faults;
mod flags;
mod instructions;
mod limits;
mod movements;
mod orders;
mod refusals;
mod replies;
mod rows;
mod sides;
mod terms;
mod texts;

pub use account_bytes::{Accounts, MarketAccounts, Named, OrdersAccount};
pub use adding::add;
pub use addresses::{Address, is_same};
pub use client_ids::ClientIds;
pub use faults::AccountFault;
pub use flags::{AccountFlags, EventFlags};
pub use instructions::{BadData, Ix};
pub use limits::{Limits, STANDARD, WIDE};
pub use movements::{Entry, MoveKind, Movement, WalletEntry};
pub use orders::{Event, Order};
pub use refusals::Refusal;
pub use replies::Reply;
pub use rows::{Row, Seen, WalletSeen};
pub use sides::{SideBook, SideRead};
pub use terms::{Lots, NoMemory, OrderType, Program, SelfTrade, Side, Tier};
