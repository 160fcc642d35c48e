//! The tokens of a market.

/// A token of a market: base (coin) or quote (pc).
#[derive(Clone, Copy, Debug, PartialEq, Eq)]
pub enum Token {
    Coin,
    Pc,
}
