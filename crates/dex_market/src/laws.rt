//! Laws of what writes leave of a market account. A law is a function without a body, and its clauses are the law.

ghost use Rattle.std.specs.Prelude.{◌≡◌, ℕ, ◌<◌, ◌^◌, List};
ghost use Rattle.dex_fields.specs.declared.market.TheConstants.{ACCOUNT_FLAGS, PC_FEES_ACCRUED};
ghost use Rattle.dex_fields.specs.Bytes.{with_number};
ghost use Rattle.dex_market.specs.declared.funds.MarketFunds.{MarketFunds};
ghost use Rattle.dex_market.specs.MarketAccount.{AreMarketFlags, IsMarket, market_words};
ghost use Rattle.dex_market.specs.MarketFunds.{FundsFit, with_funds, words_with_funds};

/// Other funds that fit their words are the market's, and nothing else of it changes.
pub fn a_market_that_is_funded_has_the_funds()
    ensures words { (bytes : List ℕ) (funds : MarketFunds) → IsMarket bytes → FundsFit funds
        → market_words (with_funds funds bytes) ≡ words_with_funds funds (market_words bytes) }
    ensures accepted { (bytes : List ℕ) (funds : MarketFunds) → IsMarket bytes → FundsFit funds
        → IsMarket (with_funds funds bytes) }
{}

/// Other pc fees that fit their word, in native pc, are the market's, and nothing else of it changes.
pub fn a_market_whose_fees_are_written_has_the_fees()
    ensures words { (bytes : List ℕ) (fees : ℕ) → IsMarket bytes → fees < 2 ^ 64
        → market_words (with_number bytes PC_FEES_ACCRUED fees)
        ≡ record (market_words bytes) { pc_fees_accrued = fees } }
    ensures accepted { (bytes : List ℕ) (fees : ℕ) → IsMarket bytes
        → IsMarket (with_number bytes PC_FEES_ACCRUED fees) }
{}

/// Flags that a market can have are the market's, and nothing else of it changes.
pub fn a_market_whose_flags_are_written_has_the_flags()
    ensures words { (bytes : List ℕ) (flags : ℕ) → IsMarket bytes → AreMarketFlags flags
        → market_words (with_number bytes ACCOUNT_FLAGS flags)
        ≡ record (market_words bytes) { account_flags = flags } }
    ensures accepted { (bytes : List ℕ) (flags : ℕ) → IsMarket bytes → AreMarketFlags flags
        → IsMarket (with_number bytes ACCOUNT_FLAGS flags) }
{}
