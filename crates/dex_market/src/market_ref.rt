//! A market account, for reading.

ghost use Rattle.std.specs.Prelude.{◌≡◌};
ghost use Rattle.dex_market.specs.MarketAccount.{IsMarket, market_words};

use dex_fields::market::{
    ACCOUNT_FLAGS, ASKS, BIDS, COIN_DEPOSITS_TOTAL, COIN_FEES_ACCRUED, COIN_LOT_SIZE, COIN_MINT,
    COIN_VAULT, EVENT_Q, FEE_RATE_BPS, OWN_ADDRESS, PC_DEPOSITS_TOTAL, PC_DUST_THRESHOLD,
    PC_FEES_ACCRUED, PC_LOT_SIZE, PC_MINT, PC_VAULT, REFERRER_REBATES_ACCRUED, REQ_Q,
    VAULT_SIGNER_NONCE,
};
use dex_fields::{get_addr, get_u64};
use dex_types::Address;

/// A market account, for reading. Each call needs bytes that `check_market` accepts.
#[derive(Clone, Copy, Debug)]
pub struct MarketRef<'a> {
    pub bytes: &'a [u8],
}

impl MarketRef<'_> {
    /// The account's flags: 3, or 131 where the market is disabled.
    pub fn account_flags(&self) -> u64
        requires { IsMarket self.now.bytes.now }
        ensures { result ≡ (market_words self.now.bytes.now).account_flags }
    {
        get_u64(self.bytes, ACCOUNT_FLAGS)
    }

    /// The market's own address.
    pub fn own_address(&self) -> Address
        requires { IsMarket self.now.bytes.now }
        ensures { result ≡ (market_words self.now.bytes.now).terms.own_address }
    {
        Address(get_addr(self.bytes, OWN_ADDRESS))
    }

    /// Stored, with no effect.
    pub fn vault_signer_nonce(&self) -> u64
        requires { IsMarket self.now.bytes.now }
        ensures { result ≡ (market_words self.now.bytes.now).terms.vault_signer_nonce }
    {
        get_u64(self.bytes, VAULT_SIGNER_NONCE)
    }

    /// The mint that the market trades.
    pub fn coin_mint(&self) -> Address
        requires { IsMarket self.now.bytes.now }
        ensures { result ≡ (market_words self.now.bytes.now).terms.coin_mint }
    {
        Address(get_addr(self.bytes, COIN_MINT))
    }

    /// The mint in which prices are counted.
    pub fn pc_mint(&self) -> Address
        requires { IsMarket self.now.bytes.now }
        ensures { result ≡ (market_words self.now.bytes.now).terms.pc_mint }
    {
        Address(get_addr(self.bytes, PC_MINT))
    }

    /// The token account that holds the coin of all traders.
    pub fn coin_vault(&self) -> Address
        requires { IsMarket self.now.bytes.now }
        ensures { result ≡ (market_words self.now.bytes.now).terms.coin_vault }
    {
        Address(get_addr(self.bytes, COIN_VAULT))
    }

    /// The coin vault's amount less the coin fees, in native coin.
    pub fn coin_deposits_total(&self) -> u64
        requires { IsMarket self.now.bytes.now }
        ensures { result ≡ (market_words self.now.bytes.now).coin_deposits_total }
    {
        get_u64(self.bytes, COIN_DEPOSITS_TOTAL)
    }

    /// Coin fees in the vault, in native coin.
    pub fn coin_fees_accrued(&self) -> u64
        requires { IsMarket self.now.bytes.now }
        ensures { result ≡ (market_words self.now.bytes.now).coin_fees_accrued }
    {
        get_u64(self.bytes, COIN_FEES_ACCRUED)
    }

    /// The token account that holds the pc of all traders.
    pub fn pc_vault(&self) -> Address
        requires { IsMarket self.now.bytes.now }
        ensures { result ≡ (market_words self.now.bytes.now).terms.pc_vault }
    {
        Address(get_addr(self.bytes, PC_VAULT))
    }

    /// The pc vault's amount less pc fees and referrer rebates, in native pc.
    pub fn pc_deposits_total(&self) -> u64
        requires { IsMarket self.now.bytes.now }
        ensures { result ≡ (market_words self.now.bytes.now).pc_deposits_total }
    {
        get_u64(self.bytes, PC_DEPOSITS_TOTAL)
    }

    /// Fees that can be swept, in native pc.
    pub fn pc_fees_accrued(&self) -> u64
        requires { IsMarket self.now.bytes.now }
        ensures { result ≡ (market_words self.now.bytes.now).pc_fees_accrued }
    {
        get_u64(self.bytes, PC_FEES_ACCRUED)
    }

    /// Stored, with no effect.
    pub fn pc_dust_threshold(&self) -> u64
        requires { IsMarket self.now.bytes.now }
        ensures { result ≡ (market_words self.now.bytes.now).terms.pc_dust_threshold }
    {
        get_u64(self.bytes, PC_DUST_THRESHOLD)
    }

    /// The address of the request queue.
    pub fn req_q(&self) -> Address
        requires { IsMarket self.now.bytes.now }
        ensures { result ≡ (market_words self.now.bytes.now).terms.req_q }
    {
        Address(get_addr(self.bytes, REQ_Q))
    }

    /// The address of the event queue.
    pub fn event_q(&self) -> Address
        requires { IsMarket self.now.bytes.now }
        ensures { result ≡ (market_words self.now.bytes.now).terms.event_q }
    {
        Address(get_addr(self.bytes, EVENT_Q))
    }

    /// The address of the bids.
    pub fn bids(&self) -> Address
        requires { IsMarket self.now.bytes.now }
        ensures { result ≡ (market_words self.now.bytes.now).terms.bids }
    {
        Address(get_addr(self.bytes, BIDS))
    }

    /// The address of the asks.
    pub fn asks(&self) -> Address
        requires { IsMarket self.now.bytes.now }
        ensures { result ≡ (market_words self.now.bytes.now).terms.asks }
    {
        Address(get_addr(self.bytes, ASKS))
    }

    /// How much native coin a coin lot has; never 0.
    pub fn coin_lot_size(&self) -> u64
        requires { IsMarket self.now.bytes.now }
        ensures { result ≡ (market_words self.now.bytes.now).terms.coin_lot_size }
    {
        get_u64(self.bytes, COIN_LOT_SIZE)
    }

    /// How much native pc a pc lot has; never 0.
    pub fn pc_lot_size(&self) -> u64
        requires { IsMarket self.now.bytes.now }
        ensures { result ≡ (market_words self.now.bytes.now).terms.pc_lot_size }
    {
        get_u64(self.bytes, PC_LOT_SIZE)
    }

    /// Stored, with no effect.
    pub fn fee_rate_bps(&self) -> u64
        requires { IsMarket self.now.bytes.now }
        ensures { result ≡ (market_words self.now.bytes.now).terms.fee_rate_bps }
    {
        get_u64(self.bytes, FEE_RATE_BPS)
    }

    /// Referrer parts that no trader has settled yet, in native pc.
    pub fn referrer_rebates_accrued(&self) -> u64
        requires { IsMarket self.now.bytes.now }
        ensures { result ≡ (market_words self.now.bytes.now).referrer_rebates_accrued }
    {
        get_u64(self.bytes, REFERRER_REBATES_ACCRUED)
    }
}
