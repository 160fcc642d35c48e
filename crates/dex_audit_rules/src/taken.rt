//! The taken slots of open accounts, and the rules of their orders.

ghost use Rattle.std.specs.Prelude.{◌≡◌, ℕ, ◌+◌, ◌++◌, ◌<◌, ◌^◌, length, OnOk, IfOk};
ghost use Rattle.std.specs.List.{flat_map};
ghost use Rattle.dex_types.specs.Side.{sequence_of};
ghost use Rattle.dex_types.specs.Soundness.{counts_order};
ghost use Rattle.dex_types.specs.Totals.{total};
ghost use Rattle.dex_orders.specs.OrdersAccount.{IsOpen, account_of};
ghost use Rattle.dex_ring.specs.Ring.{IsEventQueue, ring_of};
ghost use Rattle.dex_audit_rules.specs.Lists.{numbered};
ghost use Rattle.dex_totals.specs.Reading.{AreOrders, held_in, traders};
ghost use Rattle.dex_audit_rules.specs.Slots as rules;
ghost use Rattle.dex_audit_rules.specs.Slots.{holding, number_of};

use dex_orders::OrdersRef;
use dex_totals::opened;
use dex_types::{Address, NoMemory, OrdersAccount, Side, add};
use std::alloc::Global;

/// A taken slot of an open account: whose it is, its number, and the id, side and client id of its order.
#[derive(Clone, Copy, Debug, PartialEq, Eq)]
pub struct Taken {
    pub owner: Address,
    pub slot: u8,
    pub id: u128,
    pub side: Side,
    pub client: u64,
}

/// One more than the greatest sequence number.
const NUMBERS: u128 = 1 << 64;

/// The sequence number of a taken slot's order.
#[tactic(auto, unfolding(dex_types::specs::Side::sequence_of))]
pub fn number_of(taken: &Taken) -> u64
    ensures { result ≡ number_of taken.now }
{
    let age = (taken.id % NUMBERS) as u64;
    match taken.side {
        Side::Bid => u64::MAX - age,
        Side::Ask => age,
    }
}

/// Adds the slot, where it is taken.
fn add_slot(
    taken: &mut Vec<Taken>,
    owner: Address,
    slot: u8,
    held: Option<(u128, Side, u64)>,
) -> Result<(), NoMemory>
    ensures { OnOk result (taken.new.items ≡ taken.old.items ++ rules.taken_here owner slot (held_in held)) }
{
    let Some((id, side, client)) = held else {
        return Ok(());
    };
    let here = Taken {
        owner,
        slot,
        id,
        side,
        client,
    };
    add(taken, here)
}

/// Adds the taken slots of an open account.
fn add_slots(taken: &mut Vec<Taken>, owner: Address, view: OrdersRef<'_>) -> Result<(), NoMemory>
    requires { IsOpen view.bytes.now }
    ensures { OnOk result (taken.new.items ≡ taken.old.items
        ++ numbered (rules.taken_here owner) 0 (account_of view.entry.bytes.now).slots) }
{
    for slot in 0..128u8 {
        add_slot(taken, owner, slot, view.slot(slot))?;
    }
    Ok(())
}

/// The taken slots of open accounts, in the accounts' order.
pub fn taken_slots(alloc: Global, accounts: &[OrdersAccount]) -> Result<Vec<Taken>, NoMemory>
    requires { AreOrders accounts.now }
    ensures { IfOk result (λ taken. taken.items ≡ rules.taken_in (traders accounts.now)) }
{
    let mut taken = Vec::new(alloc);
    for account in accounts {
        if let Some(view) = opened(&account.bytes) {
            add_slots(&mut taken, account.address, view)?;
        }
    }
    Ok(taken)
}
