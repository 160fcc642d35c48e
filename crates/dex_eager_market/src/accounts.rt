//! What each account gained and paid.

ghost use Rattle.std.specs.Prelude.{◌≡◌, ℕ, ◌+◌, ◌^◌, map};
ghost use Rattle.std.specs.List.{All};
ghost use Rattle.dex_eager.specs.Eager as eager;
ghost use Rattle.dex_eager_market.specs.Accounts.{AreUpTo};
ghost use Rattle.dex_eager_market.specs.Accounts as book;

use dex_types::{Address, Side, is_same};
use dex_worth::amounts::TokenAmounts;

/// What came in for an account, and what it paid, in native units.
#[derive(Clone, Copy, Debug)]
pub struct Change {
    pub gained: TokenAmounts,
    pub paid: TokenAmounts,
}

/// An account of the market: its address, and all that came in for it and that it paid so far.
#[derive(Clone, Copy, Debug)]
pub struct Account {
    pub address: Address,
    pub total: Change,
}

/// What a trade of so much base and quote changes for who buys the base (a bid), or sells it (an ask).
pub fn traded(side: Side, base: u128, pc: u128) -> Change
    ensures { result ≡ book.traded side base pc }
{
    match side {
        Side::Bid => Change {
            gained: TokenAmounts { coin: base, pc: 0 },
            paid: TokenAmounts { coin: 0, pc },
        },
        Side::Ask => Change {
            gained: TokenAmounts { coin: 0, pc },
            paid: TokenAmounts { coin: base, pc: 0 },
        },
    }
}

/// Both together.
fn sum(one: TokenAmounts, other: TokenAmounts) -> TokenAmounts
    requires one { AreUpTo (2 ^ 126) one }
    requires other { AreUpTo (2 ^ 126) other }
    ensures { result ≡ record { coin = one.coin + other.coin; pc = one.pc + other.pc } }
{
    TokenAmounts {
        coin: one.coin + other.coin,
        pc: one.pc + other.pc,
    }
}

/// An account with a change of the owner, where it is the owner's.
fn changed(account: Account, owner: Address, change: Change) -> Account
    requires account { book.IsWithin (2 ^ 126) account }
    requires change { book.IsSmall (2 ^ 126) change }
    ensures { result ≡ book.changed owner change account }
{
    if is_same(account.address, owner) {
        Account {
            address: account.address,
            total: Change {
                gained: sum(account.total.gained, change.gained),
                paid: sum(account.total.paid, change.paid),
            },
        }
    } else {
        account
    }
}

/// Changes what the owner's account gained and paid.
fn change_worth(accounts: &mut [Account], owner: Address, change: Change)
    requires accounts { All (book.IsWithin (2 ^ 126)) accounts.old }
    requires change { book.IsSmall (2 ^ 126) change }
    ensures { accounts.new ≡ map (book.changed owner change) accounts.old }
{
    for place in 0..accounts.len() {
        accounts[place] = changed(accounts[place], owner, change);
    }
}

/// Adds a change of the owner to its account.
pub fn add(accounts: &mut Vec<Account>, owner: Address, change: Change)
    requires accounts { All (book.IsWithin (2 ^ 126)) accounts.old.items }
    requires change { book.IsSmall (2 ^ 126) change }
    ensures worths { map book.entry_of accounts.new.items
        ≡ eager.with_change owner (book.worth_of change) (map book.entry_of accounts.old.items) }
    ensures within { (bound more : ℕ) → All (book.IsWithin bound) accounts.old.items → book.IsSmall more change
        → All (book.IsWithin (bound + more)) accounts.new.items }
{
    change_worth(accounts, owner, change);
}
