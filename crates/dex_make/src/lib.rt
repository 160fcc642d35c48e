//! Accounts as they are made, and which market the accounts of a market stand for.
#![tactic(auto)]

mod laws;
mod market;
mod market_bytes;
mod parts;
mod tokens;
mod zeroed;

pub use laws::{
    a_made_market_is_sound, accounts_with_blank_ones_stand_for_the_market_with_them,
    parts_have_addresses_of_their_own,
};
pub use market::{MarketRoom, MarketSet, make_market, make_market_in, make_orders};
pub use parts::{MarketPart, derived};
pub use tokens::{make_mint, make_wallet};
pub use zeroed::zeros;
