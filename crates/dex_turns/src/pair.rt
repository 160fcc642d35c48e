//! What the two legs of a swap take turns of.

ghost use Rattle.std.specs.Prelude.{◌≡◌};
ghost use Rattle.dex_types.specs.Rows.{row_of};
ghost use Rattle.dex_world.specs.Items.{ShareNothing};
ghost use Rattle.dex_locks.specs.Places.{StandInFront, front};
ghost use Rattle.dex_turns.specs.Turns.{leg_markets, leg_wallets};

use dex_locks::{by_address, plan_wallets};
use dex_types::{Address, Row};

/// What the two legs of a swap take turns of, in the order in which they take them: their markets, and then their
/// wallets from the front, as far as there are any.
#[derive(Clone, Copy, Debug, PartialEq, Eq)]
pub struct Pair {
    pub markets: [Address; 2],
    pub wallets: [Option<Address>; 4],
}

/// The plan of two legs: their markets by rising address, and the wallets that they name as coin and as pc by rising
/// address. It is one order for all legs, whichever stands first in its row. It takes no memory.
pub fn plan_pair(first: &Row, second: &Row) -> Pair
    requires { ShareNothing (row_of first.now) (row_of second.now) }
    ensures markets { result.markets ≡ leg_markets (row_of first.entry.now) (row_of second.entry.now) }
    ensures wallets { front result.wallets ≡ leg_wallets (row_of first.entry.now) (row_of second.entry.now) }
    ensures none_between { StandInFront result.wallets }
{
    Pair {
        markets: by_address(first.market, second.market),
        wallets: plan_wallets(&first.coin, &first.pc, &second.coin, &second.pc),
    }
}
