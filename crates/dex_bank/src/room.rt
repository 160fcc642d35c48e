//! Room for what cells leave where they are closed.

ghost use Rattle.std.specs.Prelude.{◌≡◌, ◌≤◌, [], IfOk, vec_capacity};

use dex_state::{MarketJournal, WalletJournal};
use dex_types::{MarketAccounts, Named, NoMemory};
use std::alloc::Global;
use std::marker::Model;

/// What cells leave, or room for it: the accounts of each, and its journal.
#[derive(Drop)]
pub(crate) struct OutcomeParts<A, J> {
    pub(crate) accounts: Vec<A>,
    pub(crate) journals: Vec<J>,
}

/// Room for what so many cells leave.
fn room_for<A: Drop, J: Drop>(alloc: Global, count: usize) -> Result<OutcomeParts<A, J>, NoMemory>
    ensures accounts { IfOk result (λ room. (room.accounts.items ≡ []) × (count ≤ vec_capacity room.accounts)) }
    ensures journals { IfOk result (λ room. (room.journals.items ≡ []) × (count ≤ vec_capacity room.journals)) }
{
    let accounts = Vec::with_capacity(alloc, count)?;
    let journals = Vec::with_capacity(alloc, count)?;
    Ok(OutcomeParts { accounts, journals })
}

/// Room for what the cells of this many markets and wallets leave.
#[derive(Drop)]
pub struct Room {
    pub(crate) of_markets: OutcomeParts<MarketAccounts, MarketJournal>,
    pub(crate) of_wallets: OutcomeParts<Named, WalletJournal>,
}

impl Model for Room {
    ghost use Rattle.dex_bank.specs.Room.{RoomState};
    ghost use Rattle.dex_bank.specs.RoomInside.{IsEmptyRoom, room_inside};

    ghost Value = { RoomState };

    ghost view = { room_inside };

    ghost invariant = { IsEmptyRoom };
}

impl Room {
    /// Room for this many markets and wallets.
    pub fn reserve(alloc: Global, markets: usize, wallets: usize) -> Result<Room, NoMemory>
        ensures { IfOk result (λ room. (markets ≤ room.markets) × (wallets ≤ room.wallets)) }
    {
        let of_markets = room_for(alloc, markets)?;
        let of_wallets = room_for(alloc, wallets)?;
        Ok(Room {
            of_markets,
            of_wallets,
        })
    }
}
