//! What a check finds.

use dex_audit::Finding;
use dex_types::{AccountFault, Address};

/// The first thing that is wrong with accounts.
#[derive(Clone, Copy, Debug, PartialEq, Eq)]
pub enum Flaw {
    /// The account of this address is not accepted: it has this fault, for which a dump with it is refused (of a slab
    /// one of its faults).
    Fault(Address, AccountFault),
    /// Two open-orders accounts, or two wallets, have this address (of addresses that stand twice, one).
    Twice(Address),
    /// An audit finds this in the market.
    Found(Finding),
}
