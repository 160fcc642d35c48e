use crate::addresses::Address;

/// A resting order, as a leaf of a book side holds it (Serum DEX v3, `critbit::LeafNode`).
///
/// `id` is the price, in quote lots per base lot, above 64 bits that order equal prices by age; `slot` is the owner's
/// slot, below 128; `tier` the fee tier, from 0 to 6, with which it was placed; `lots` the base lots left.
#[derive(Clone, Copy, Debug, PartialEq, Eq)]
pub struct Order {
    pub id: u128,
    pub owner: Address,
    pub slot: u8,
    pub tier: u8,
    pub lots: u64,
    pub client: u64,
}

/// A pending event, as the event queue holds it (Serum DEX v3, `state::Event`).
///
/// `flags` are Fill 1, Out 2, Bid 4, Maker 8 and ReleaseFunds 16. The three amounts are native: of a fill
/// what the owner receives, what the owner pays and the fee or the maker's rebate; of an out what it
/// unlocks, what stays locked and 0.
#[derive(Clone, Copy, Debug, PartialEq, Eq)]
pub struct Event {
    pub flags: u8,
    pub slot: u8,
    pub tier: u8,
    pub released: u64,
    pub paid: u64,
    pub fee_or_rebate: u64,
    pub id: u128,
    pub owner: Address,
    pub client: u64,
}
