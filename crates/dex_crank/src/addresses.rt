//! Addresses, compared by their bytes.

ghost use Rattle.std.specs.Prelude.{◌≡◌};
ghost use Rattle.dex_types.specs.Payment.{is_named};

use dex_types::{Address, is_same};

/// Whether the address is one of these.
pub fn is_named(address: Address, named: &[Address]) -> bool
    ensures { result ≡ is_named address named.now }
{
    for place in 0..named.len() {
        if is_same(address, named[place]) {
            return true;
        }
    }
    false
}
