//! Wallets whose tokens move by parcels alone.
//!
//! A parcel is an amount of one mint's tokens. It can neither be copied nor dropped: whoever takes one has to put it
//! somewhere. A wallet's cell keeps a token account, the parcel that its amount is, and the journal of its movements.
#![tactic(auto)]

mod account;
mod parcel;
mod wallet_cell;

pub use parcel::Parcel;
pub use wallet_cell::WalletCell;
