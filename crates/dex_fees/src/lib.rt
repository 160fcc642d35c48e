//! Fees of the exchange: the tier that a discount wallet reaches, the taker's fee, the makers' rebates and
//! the referrer's part, for the fee tables of the Serum DEX, version 3, and of OpenBook v1.
//!
//! Amounts are native. Every call answers for every argument and takes no memory.
#![tactic(auto)]

pub mod fees;
pub mod laws;
pub mod tiers;

pub use fees::{maker_rebate, referrer_part, spendable, taker_fee};
pub use tiers::{tier_at, tier_number, tier_of};
