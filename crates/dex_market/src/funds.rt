//! What a market's words tell together: its lot sizes, the amounts of its vaults, and the funds that steps write at
//! once.

ghost use Rattle.std.specs.Prelude.{◌≡◌, ◌<◌, ◌^◌};
ghost use Rattle.dex_market.specs.MarketAccount as account;
ghost use Rattle.dex_market.specs.MarketFunds as money;
ghost use Rattle.dex_types.specs.Side as book;

use crate::{MarketRef, MarketView};
use dex_types::Lots;

/// The funds of a market, in native amounts: the deposits of both tokens, and of the quote what the market earned and
/// what referrers are still to get.
#[derive(Clone, Copy)]
pub struct MarketFunds {
    pub coin_deposits: u64,
    pub pc_deposits: u64,
    pub pc_fees: u64,
    pub referrer_rebates: u64,
}

/// The native amounts in a market's vaults.
#[derive(Clone, Copy)]
pub struct Vaults {
    pub coin: u128,
    pub pc: u128,
}

impl MarketRef<'_> {
    /// The lot sizes.
    pub fn sizes(&self) -> Lots
        requires { account.IsMarket self.now.bytes.now }
        ensures { result ≡ account.sizes_of (account.market_words self.now.bytes.now) }
    {
        Lots {
            coin: self.coin_lot_size(),
            pc: self.pc_lot_size(),
        }
    }

    /// What is in the vaults: of each token its deposits, and what was earned of it.
    pub fn vaults(&self) -> Vaults
        requires { account.IsMarket self.now.bytes.now }
        ensures coin { result.coin ≡ account.vault_of book.Coin (account.market_words self.now.bytes.now) }
        ensures pc { result.pc ≡ account.vault_of book.Pc (account.market_words self.now.bytes.now) }
        ensures coin_small { result.coin < 2 ^ 65 }
        ensures pc_small { result.pc < 2 ^ 66 }
    {
        let earned = u128::from(self.pc_fees_accrued())
            + u128::from(self.referrer_rebates_accrued());
        Vaults {
            coin: u128::from(self.coin_deposits_total()) + u128::from(self.coin_fees_accrued()),
            pc: u128::from(self.pc_deposits_total()) + earned,
        }
    }
}

impl MarketView<'_> {
    /// The lot sizes.
    pub fn sizes(&self) -> Lots
        requires { account.IsMarket self.now.bytes.now }
        ensures { result ≡ account.sizes_of (account.market_words self.now.bytes.now) }
    {
        Lots {
            coin: self.coin_lot_size(),
            pc: self.pc_lot_size(),
        }
    }

    /// Writes the four words of the market's funds; all other bytes stay.
    pub fn set_funds(&mut self, funds: MarketFunds)
        requires { account.IsMarket self.old.bytes.now }
        ensures place { self.new.bytes.ghost_name ≡ self.old.bytes.ghost_name }
        ensures bytes { self.new.bytes.now ≡ money.with_funds funds self.old.bytes.now }
        ensures words { account.market_words self.new.bytes.now
            ≡ money.words_with_funds funds (account.market_words self.old.bytes.now) }
        ensures accepted { account.IsMarket self.new.bytes.now }
    {
        self.set_coin_deposits_total(funds.coin_deposits);
        self.set_pc_deposits_total(funds.pc_deposits);
        self.set_pc_fees_accrued(funds.pc_fees);
        self.set_referrer_rebates_accrued(funds.referrer_rebates);
    }
}
