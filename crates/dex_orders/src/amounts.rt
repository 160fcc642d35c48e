//! A trader's funds on a market.

/// A trader's native amounts on a market, and what is kept for a referrer.
#[derive(Clone, Copy, Debug, PartialEq, Eq)]
pub struct Funds {
    /// Native coin that nothing locks; at most the total.
    pub coin_free: u64,
    pub coin_total: u64,
    /// Native pc that nothing locks; at most the total.
    pub pc_free: u64,
    pub pc_total: u64,
    /// The referrer part, in native pc, which is not the trader's.
    pub referrer: u64,
}
