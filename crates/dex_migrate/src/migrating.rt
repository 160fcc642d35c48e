//! Accounts of another size.

ghost use Rattle.std.specs.Prelude.{◌≡◌, ◌≤◌, IfOk, MatchResult, Some, None};
ghost use Rattle.dex_state.specs.Accepted.{AreAccepted};
ghost use Rattle.dex_types.specs.declared.limits.Limits.{Limits};
ghost use Rattle.dex_types.specs.declared.limits.TheConstants.{WIDE};
ghost use Rattle.dex_migrate.specs.Migrated.{AreMigrated};
ghost use Rattle.dex_migrate.specs.Answers.{Answers};
ghost use Rattle.dex_types.specs.Accounts.{accounts_of};

use crate::faults::MigrateError;
use crate::markets::migrate_markets;
use crate::too_small::first_fault;
use dex_types::Accounts;
use std::alloc::Global;

/// The accounts with sides of this many nodes and event queues for this many events, from 1 to 65,536 and from 1 to
/// 65,535; every order and every pending event stays, and all other accounts are as they were. They are accepted again,
/// within the same limits.
///
/// `TooSmall` comes exactly where a market has more bids or asks than such a side has room for, or more pending events
/// than such a queue: it names the first such market, and of it bids before asks before events. Else only memory can be
/// wanting.
pub fn migrate(
    alloc: Global,
    accounts: Accounts,
    nodes: u32,
    events: u32,
) -> Result<Accounts, MigrateError>
    requires accepted { AreAccepted WIDE (accounts_of accounts) }
    requires nodes { (1 ≤ nodes) × (nodes ≤ 65536) }
    requires events { (1 ≤ events) × (events ≤ 65535) }
    ensures answer { Answers nodes events (accounts_of accounts) result }
    ensures accepted { IfOk result (λ migrated. (limits : Limits)
        → AreAccepted limits (accounts_of accounts) → AreAccepted limits (accounts_of migrated)) }
{
    if let Some(fault) = first_fault(&accounts.markets, nodes, events) {
        return Err(MigrateError::TooSmall(fault));
    }
    let mut migrated = accounts;
    migrate_markets(alloc, &mut migrated.markets, nodes, events)?;
    Ok(migrated)
}
