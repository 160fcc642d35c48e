//! Which market the accounts of a market stand for, and the open-orders account of an address among them.
#![tactic(auto)]

mod laws;
mod owners;

pub use laws::{
    a_replaced_account_stands_for_its_replaced_trader, accounts_stand_for_one_market,
    accounts_stand_for_the_market_of_their_parts, accounts_tell_their_market,
    an_open_account_is_its_traders, parts_of_accounts_are_of_their_market, parts_tell_their_market,
    what_is_put_into_parts_is_put_into_their_market,
};
pub use owners::{find_bytes, place_of};
