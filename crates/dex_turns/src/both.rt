//! The wallets of the two legs of a swap, put together.

ghost use Rattle.std.specs.Prelude.{◌≡◌};
ghost use Rattle.dex_types.specs.Rows.{row_of};
ghost use Rattle.dex_script_types.specs.Facts.{AreLegs};
ghost use Rattle.dex_script_types.specs.Places.{IsPlaced};
ghost use Rattle.dex_script_types.specs.PlainScript.{PlainScript};
ghost use Rattle.dex_turns.specs.Legs as spec;
ghost use Rattle.dex_turns.specs.Turns.{AreLegsAt};

use dex_script_types::{FindsWallets, is_role, wallets_at};
use dex_types::{Address, Row};
use dex_world::{RowPlaces, RowWallets};

/// Two legs with what stands beside them: who finds the wallets that they name as coin and as pc.
#[derive(Drop)]
struct Both<'a> {
    first: &'a Row,
    second: &'a Row,
    one: &'a RowPlaces,
    two: &'a RowPlaces,
}

impl<'a> FindsWallets for Both<'a> {
    ghost place = { λ it. spec.beside_legs (row_of it.first.now) (row_of it.second.now) it.one.now it.two.now };

    fn find(&self, address: Address) -> Option<u16> {
        let one = &self.one.wallets;
        let two = &self.two.wallets;
        at_role(self.first.coin, one.at(one.coin), address)
            .or(at_role(self.first.pc, one.at(one.pc), address))
            .or(at_role(self.second.coin, two.at(two.coin), address))
            .or(at_role(self.second.pc, two.at(two.pc), address))
    }
}

/// The place of a role's wallet, where it is this one.
fn at_role(role: Option<Address>, place: u16, address: Address) -> Option<u16>
    ensures { result ≡ spec.at_role role place address }
{
    is_role(role, address).then_some(place)
}

/// Where the wallets of two legs stand, by rising address, those of the second as if they were discount and referrer of
/// the first.
pub(crate) fn wallets_of_both(
    first: &Row,
    second: &Row,
    one: &RowPlaces,
    two: &RowPlaces,
) -> RowWallets
    requires { AreLegs (row_of first.now) (row_of second.now) }
    ensures { (script : PlainScript) → IsPlaced script.start (row_of first.entry.now) one.entry.now
        → IsPlaced script.start (row_of second.entry.now) two.entry.now
        → AreLegsAt script (row_of first.entry.now) (row_of second.entry.now) result }
{
    let both = Both {
        first,
        second,
        one,
        two,
    };
    match wallets_at(&both, first.coin, first.pc, second.coin, second.pc) {
        Some(wallets) => wallets,
        // Each stands beside its leg.
        None => unreachable!(),
    }
}
