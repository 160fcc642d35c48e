/// What settling an account pays, in native amounts.
#[derive(Clone, Copy, Debug, PartialEq, Eq)]
pub struct SettlePlan {
    /// To the coin wallet: all free coin.
    pub coin: u64,
    /// To the pc wallet: all free pc.
    pub pc: u64,
    /// Of pc, to the referrer's wallet: the referrer part, where a referrer is named.
    pub referrer: u64,
    /// Of pc, to the market's fees: the referrer part, where no referrer is named.
    pub to_fees: u64,
}
