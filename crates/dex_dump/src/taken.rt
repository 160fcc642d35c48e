//! Addresses that are taken.

ghost use Rattle.std.specs.Prelude.{◌≡◌, [], ◌∷◌, ◌++◌, OnOk};
ghost use Rattle.dex_dump.specs.Reading.{is_among};

use dex_types::{Address, NoMemory};
use std::alloc::Global;
use std::collections::HashSet;
use std::marker::Model;

/// Addresses in the order in which they were taken. Whether one is among them is told at once, however many there are.
#[derive(Drop)]
pub struct TakenAddresses {
    in_order: Vec<Address>,
    found: HashSet<Address>,
}

impl Model for TakenAddresses {
    ghost use Rattle.std.specs.Prelude.{List};
    ghost use Rattle.dex_types.specs.declared.addresses.Address.{Address};
    ghost use Rattle.dex_dump.specs.TakenAddresses.{IsFound, taken_inside};

    ghost Value = { List Address };

    ghost view = { taken_inside };

    ghost invariant = { IsFound };
}

impl TakenAddresses {
    /// No address.
    pub fn new(alloc: Global) -> TakenAddresses
        ensures { result ≡ [] }
    {
        TakenAddresses {
            in_order: Vec::new(alloc),
            found: HashSet::new(alloc),
        }
    }

    /// Whether an address is taken.
    pub fn has(&self, address: Address) -> bool
        ensures { result ≡ is_among address self.now }
    {
        self.found.contains(&address)
    }

    /// Takes an address. Asks memory.
    pub fn push(&mut self, address: Address) -> Result<(), NoMemory>
        ensures { OnOk result (self.new ≡ self.old ++ address ∷ []) }
    {
        self.in_order.reserve(1)?;
        match self.found.insert(address) {
            Ok(_) => {
                self.in_order.push_reserved(address);
                Ok(())
            }
            Err(_) => Err(NoMemory),
        }
    }
}
