//! How much a dump and a script may hold.

/// The most that is read of each kind.
#[derive(Clone, Copy, Debug, PartialEq, Eq)]
pub struct Limits {
    pub mints: usize,
    pub wallets: usize,
    pub markets: usize,
    /// Open-orders accounts of one market.
    pub orders: usize,
    /// Instruction rows of a script, where a swap is one.
    pub items: u32,
    /// Bytes of input.
    pub bytes: usize,
}

/// The limits of the program.
pub const STANDARD: Limits = Limits {
    mints: 16,
    wallets: 256,
    markets: 16,
    orders: 64,
    items: 100_000,
    bytes: 67_108_864,
};

/// The highest limits: places are numbers of 16 bits, of which the highest marks none, and rows have numbers of 32
/// bits. The bytes are one tebibyte.
pub const WIDE: Limits = Limits {
    mints: 256,
    wallets: 65_535,
    markets: 256,
    orders: 65_535,
    items: 4_294_967_295,
    bytes: 1_099_511_627_776,
};
