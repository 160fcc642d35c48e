//! A market account, for reading and for writing in place.

ghost use Rattle.std.specs.Prelude.{◌≡◌};
ghost use Rattle.dex_fields.specs.Bytes.{with_number};
ghost use Rattle.dex_market.specs.MarketAccount.{AreMarketFlags, IsMarket, market_words};

use crate::MarketRef;
use dex_fields::market::{
    ACCOUNT_FLAGS, COIN_DEPOSITS_TOTAL, COIN_FEES_ACCRUED, PC_DEPOSITS_TOTAL, PC_FEES_ACCRUED,
    REFERRER_REBATES_ACCRUED,
};
use dex_fields::put_u64;
use dex_types::Address;

/// A market account, for reading and for writing in place. Each call needs bytes that `check_market` accepts, and
/// leaves them accepted.
#[derive(Debug, Drop)]
pub struct MarketView<'a> {
    pub bytes: &'a mut [u8],
}

impl MarketView<'_> {
    /// The account, for reading.
    fn as_ref(&self) -> MarketRef<'_>
        ensures { result.bytes.now ≡ self.now.bytes.now }
    {
        MarketRef { bytes: self.bytes }
    }

    /// The account's flags: 3, or 131 where the market is disabled.
    pub fn account_flags(&self) -> u64
        requires { IsMarket self.now.bytes.now }
        ensures { result ≡ (market_words self.now.bytes.now).account_flags }
    {
        self.as_ref().account_flags()
    }

    /// The market's own address.
    pub fn own_address(&self) -> Address
        requires { IsMarket self.now.bytes.now }
        ensures { result ≡ (market_words self.now.bytes.now).terms.own_address }
    {
        self.as_ref().own_address()
    }

    /// Stored, with no effect.
    pub fn vault_signer_nonce(&self) -> u64
        requires { IsMarket self.now.bytes.now }
        ensures { result ≡ (market_words self.now.bytes.now).terms.vault_signer_nonce }
    {
        self.as_ref().vault_signer_nonce()
    }

    /// The mint that the market trades.
    pub fn coin_mint(&self) -> Address
        requires { IsMarket self.now.bytes.now }
        ensures { result ≡ (market_words self.now.bytes.now).terms.coin_mint }
    {
        self.as_ref().coin_mint()
    }

    /// The mint in which prices are counted.
    pub fn pc_mint(&self) -> Address
        requires { IsMarket self.now.bytes.now }
        ensures { result ≡ (market_words self.now.bytes.now).terms.pc_mint }
    {
        self.as_ref().pc_mint()
    }

    /// The token account that holds the coin of all traders.
    pub fn coin_vault(&self) -> Address
        requires { IsMarket self.now.bytes.now }
        ensures { result ≡ (market_words self.now.bytes.now).terms.coin_vault }
    {
        self.as_ref().coin_vault()
    }

    /// The coin vault's amount less the coin fees, in native coin.
    pub fn coin_deposits_total(&self) -> u64
        requires { IsMarket self.now.bytes.now }
        ensures { result ≡ (market_words self.now.bytes.now).coin_deposits_total }
    {
        self.as_ref().coin_deposits_total()
    }

    /// Coin fees in the vault, in native coin.
    pub fn coin_fees_accrued(&self) -> u64
        requires { IsMarket self.now.bytes.now }
        ensures { result ≡ (market_words self.now.bytes.now).coin_fees_accrued }
    {
        self.as_ref().coin_fees_accrued()
    }

    /// The token account that holds the pc of all traders.
    pub fn pc_vault(&self) -> Address
        requires { IsMarket self.now.bytes.now }
        ensures { result ≡ (market_words self.now.bytes.now).terms.pc_vault }
    {
        self.as_ref().pc_vault()
    }

    /// The pc vault's amount less pc fees and referrer rebates, in native pc.
    pub fn pc_deposits_total(&self) -> u64
        requires { IsMarket self.now.bytes.now }
        ensures { result ≡ (market_words self.now.bytes.now).pc_deposits_total }
    {
        self.as_ref().pc_deposits_total()
    }

    /// Fees that can be swept, in native pc.
    pub fn pc_fees_accrued(&self) -> u64
        requires { IsMarket self.now.bytes.now }
        ensures { result ≡ (market_words self.now.bytes.now).pc_fees_accrued }
    {
        self.as_ref().pc_fees_accrued()
    }

    /// Stored, with no effect.
    pub fn pc_dust_threshold(&self) -> u64
        requires { IsMarket self.now.bytes.now }
        ensures { result ≡ (market_words self.now.bytes.now).terms.pc_dust_threshold }
    {
        self.as_ref().pc_dust_threshold()
    }

    /// The address of the request queue.
    pub fn req_q(&self) -> Address
        requires { IsMarket self.now.bytes.now }
        ensures { result ≡ (market_words self.now.bytes.now).terms.req_q }
    {
        self.as_ref().req_q()
    }

    /// The address of the event queue.
    pub fn event_q(&self) -> Address
        requires { IsMarket self.now.bytes.now }
        ensures { result ≡ (market_words self.now.bytes.now).terms.event_q }
    {
        self.as_ref().event_q()
    }

    /// The address of the bids.
    pub fn bids(&self) -> Address
        requires { IsMarket self.now.bytes.now }
        ensures { result ≡ (market_words self.now.bytes.now).terms.bids }
    {
        self.as_ref().bids()
    }

    /// The address of the asks.
    pub fn asks(&self) -> Address
        requires { IsMarket self.now.bytes.now }
        ensures { result ≡ (market_words self.now.bytes.now).terms.asks }
    {
        self.as_ref().asks()
    }

    /// How much native coin a coin lot has; never 0.
    pub fn coin_lot_size(&self) -> u64
        requires { IsMarket self.now.bytes.now }
        ensures { result ≡ (market_words self.now.bytes.now).terms.coin_lot_size }
    {
        self.as_ref().coin_lot_size()
    }

    /// How much native pc a pc lot has; never 0.
    pub fn pc_lot_size(&self) -> u64
        requires { IsMarket self.now.bytes.now }
        ensures { result ≡ (market_words self.now.bytes.now).terms.pc_lot_size }
    {
        self.as_ref().pc_lot_size()
    }

    /// Stored, with no effect.
    pub fn fee_rate_bps(&self) -> u64
        requires { IsMarket self.now.bytes.now }
        ensures { result ≡ (market_words self.now.bytes.now).terms.fee_rate_bps }
    {
        self.as_ref().fee_rate_bps()
    }

    /// Referrer parts that no trader has settled yet, in native pc.
    pub fn referrer_rebates_accrued(&self) -> u64
        requires { IsMarket self.now.bytes.now }
        ensures { result ≡ (market_words self.now.bytes.now).referrer_rebates_accrued }
    {
        self.as_ref().referrer_rebates_accrued()
    }

    /// Writes the flags. All other bytes stay.
    pub fn set_account_flags(&mut self, value: u64)
        requires accepted { IsMarket self.old.bytes.now }
        requires flags { AreMarketFlags value }
        ensures place { self.new.bytes.ghost_name ≡ self.old.bytes.ghost_name }
        ensures bytes { self.new.bytes.now ≡ with_number self.old.bytes.now ACCOUNT_FLAGS value }
        ensures words { market_words self.new.bytes.now
            ≡ record (market_words self.old.bytes.now) { account_flags = value } }
        ensures accepted { IsMarket self.new.bytes.now }
    {
        put_u64(self.bytes, ACCOUNT_FLAGS, value);
    }

    /// Writes the coin deposits, in native coin. All other bytes stay.
    pub fn set_coin_deposits_total(&mut self, value: u64)
        requires { IsMarket self.old.bytes.now }
        ensures place { self.new.bytes.ghost_name ≡ self.old.bytes.ghost_name }
        ensures bytes { self.new.bytes.now ≡ with_number self.old.bytes.now COIN_DEPOSITS_TOTAL value }
        ensures words { market_words self.new.bytes.now
            ≡ record (market_words self.old.bytes.now) { coin_deposits_total = value } }
        ensures accepted { IsMarket self.new.bytes.now }
    {
        put_u64(self.bytes, COIN_DEPOSITS_TOTAL, value);
    }

    /// Writes the coin fees, in native coin. All other bytes stay.
    pub fn set_coin_fees_accrued(&mut self, value: u64)
        requires { IsMarket self.old.bytes.now }
        ensures place { self.new.bytes.ghost_name ≡ self.old.bytes.ghost_name }
        ensures bytes { self.new.bytes.now ≡ with_number self.old.bytes.now COIN_FEES_ACCRUED value }
        ensures words { market_words self.new.bytes.now
            ≡ record (market_words self.old.bytes.now) { coin_fees_accrued = value } }
        ensures accepted { IsMarket self.new.bytes.now }
    {
        put_u64(self.bytes, COIN_FEES_ACCRUED, value);
    }

    /// Writes the pc deposits, in native pc. All other bytes stay.
    pub fn set_pc_deposits_total(&mut self, value: u64)
        requires { IsMarket self.old.bytes.now }
        ensures place { self.new.bytes.ghost_name ≡ self.old.bytes.ghost_name }
        ensures bytes { self.new.bytes.now ≡ with_number self.old.bytes.now PC_DEPOSITS_TOTAL value }
        ensures words { market_words self.new.bytes.now
            ≡ record (market_words self.old.bytes.now) { pc_deposits_total = value } }
        ensures accepted { IsMarket self.new.bytes.now }
    {
        put_u64(self.bytes, PC_DEPOSITS_TOTAL, value);
    }

    /// Writes the pc fees, in native pc. All other bytes stay.
    pub fn set_pc_fees_accrued(&mut self, value: u64)
        requires { IsMarket self.old.bytes.now }
        ensures place { self.new.bytes.ghost_name ≡ self.old.bytes.ghost_name }
        ensures bytes { self.new.bytes.now ≡ with_number self.old.bytes.now PC_FEES_ACCRUED value }
        ensures words { market_words self.new.bytes.now
            ≡ record (market_words self.old.bytes.now) { pc_fees_accrued = value } }
        ensures accepted { IsMarket self.new.bytes.now }
    {
        put_u64(self.bytes, PC_FEES_ACCRUED, value);
    }

    /// Writes the referrer rebates, in native pc. All other bytes stay.
    pub fn set_referrer_rebates_accrued(&mut self, value: u64)
        requires { IsMarket self.old.bytes.now }
        ensures place { self.new.bytes.ghost_name ≡ self.old.bytes.ghost_name }
        ensures bytes { self.new.bytes.now ≡ with_number self.old.bytes.now REFERRER_REBATES_ACCRUED value }
        ensures words { market_words self.new.bytes.now
            ≡ record (market_words self.old.bytes.now) { referrer_rebates_accrued = value } }
        ensures accepted { IsMarket self.new.bytes.now }
    {
        put_u64(self.bytes, REFERRER_REBATES_ACCRUED, value);
    }
}
