//! Amounts of both tokens, summed for each account of a market.

ghost use Rattle.std.specs.Prelude.{◌≡◌, length};
ghost use Rattle.dex_worth.specs.Amounts as tally;

use dex_types::{Address, Side, is_same};

/// An amount of base (coin) and one of quote (pc), in native units. Sums stop at 2^128 - 1.
#[derive(Clone, Copy, Debug, PartialEq, Eq)]
pub struct TokenAmounts {
    pub coin: u128,
    pub pc: u128,
}

/// No amount of either token.
pub const NONE: TokenAmounts = TokenAmounts { coin: 0, pc: 0 };

/// Both together.
pub fn both(one: TokenAmounts, other: TokenAmounts) -> TokenAmounts
    ensures { result ≡ tally.capped_amounts (tally.both one other) }
{
    TokenAmounts {
        coin: one.coin.saturating_add(other.coin),
        pc: one.pc.saturating_add(other.pc),
    }
}

/// An amount of what orders of a side lock: bids quote, asks base.
pub fn on_side(side: Side, amount: u128) -> TokenAmounts
    ensures { result ≡ tally.on_side side amount }
{
    match side {
        Side::Bid => TokenAmounts {
            coin: 0,
            pc: amount,
        },
        Side::Ask => TokenAmounts {
            coin: amount,
            pc: 0,
        },
    }
}

/// A sum with more of an owner, where it is the sum of that owner.
fn with_own(sum: TokenAmounts, of: Address, owner: Address, more: TokenAmounts) -> TokenAmounts
    ensures { result ≡ tally.with_own owner more of sum }
{
    if is_same(of, owner) {
        both(sum, more)
    } else {
        sum
    }
}

/// Adds to the sum of an owner, wherever it stands among these.
pub fn add(sums: &mut [TokenAmounts], owners: &[Address], owner: Address, more: TokenAmounts)
    requires { length sums.old ≡ length owners.now }
    ensures { sums.new ≡ tally.added owner more owners.now sums.old }
{
    for place in 0..owners.len() {
        sums[place] = with_own(sums[place], owners[place], owner, more);
    }
}
