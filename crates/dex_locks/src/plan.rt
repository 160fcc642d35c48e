//! The plan of a row.

ghost use Rattle.std.specs.Prelude.{◌≡◌, [], false};
ghost use Rattle.dex_types.specs.Addresses as addresses;
ghost use Rattle.dex_types.specs.Rows.{row_of};
ghost use Rattle.dex_types.specs.Wallets.{row_wallets, with_address, with_role};
ghost use Rattle.dex_locks.specs.Places.{StandInFront, front};

use crate::insert::{is_lower, put_role};
use dex_types::{Address, Row};

/// What a row takes, in the order in which it takes it: its market, and then the wallets from the front, as far as
/// there are any.
#[derive(Clone, Copy, Debug, PartialEq, Eq)]
pub struct LockPlan {
    pub market: Address,
    pub wallets: [Option<Address>; 4],
}

/// The plan of a row: its market, and the wallets that it names, under whichever roles, by rising address, each once.
pub fn plan_locks(row: &Row) -> LockPlan
    ensures market { result.market ≡ (row_of row.entry.now).market }
    ensures wallets { front result.wallets ≡ row_wallets (row_of row.entry.now) }
    ensures none_between { StandInFront result.wallets }
{
    LockPlan {
        market: row.market,
        wallets: plan_wallets(&row.coin, &row.pc, &row.discount, &row.referrer),
    }
}

/// The wallets of four roles, by rising address, each once, from the front of four places.
pub fn plan_wallets(
    coin: &Option<Address>,
    pc: &Option<Address>,
    discount: &Option<Address>,
    referrer: &Option<Address>,
) -> [Option<Address>; 4]
    ensures wallets { front result ≡ with_role coin.entry.now
        (with_role pc.entry.now (with_role discount.entry.now (with_role referrer.entry.now []))) }
    ensures none_between { StandInFront result }
{
    let mut places = [None; 4];
    put_role(&mut places, referrer);
    put_role(&mut places, discount);
    put_role(&mut places, pc);
    put_role(&mut places, coin);
    places
}

/// Two addresses that are not one, the lower one first.
pub fn by_address(one: Address, other: Address) -> [Address; 2]
    requires { addresses.is_same one other ≡ false }
    ensures { result ≡ with_address one (with_address other []) }
{
    if is_lower(one, other) {
        [one, other]
    } else {
        [other, one]
    }
}
