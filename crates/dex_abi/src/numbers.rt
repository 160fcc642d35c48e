//! A reply as numbers.

/// A number of 128 bits by its halves: `low + 2^64 * high`.
#[repr(C)]
#[derive(Clone, Copy)]
pub struct Wide {
    pub low: u64,
    pub high: u64,
}

/// A reply, or a refusal with its values, as numbers. `kind` tells which reply it is, `reason` the number of a refusal;
/// the other fields are those of `Reply` and `Refusal` of the same name, and 0 where the kind has none:
///
/// | `kind` | Reply | Fields |
/// |---|---|---|
/// | 0 | `Refused` | `reason`, and its values |
/// | 1 | `Ordered` | `order` (its id), `slot`, `lots`, `pc`, `fee`, `rested` |
/// | 2 | `Took` | `lots`, `pc`, `fee` |
/// | 3, 4 | `Cancelled`, `Consumed` | `count` |
/// | 5 | `Settled` | `coin`, `pc`, `referrer` |
/// | 6 | `Swept` | `pc` |
/// | 7 | `Done` | |
///
/// Of refusals: `rule` (1); `address`, an owner's, an authority's, a mint's or an account's (5 to 8, 16); `count` slots
/// and `held` funds (9); `clock` and `latest` (13); `order` (19); `amount`, what was got, needed or brought, and
/// `balance` (20, 22, 23); `count` needed and `room` (21); `held` in the vault and `pending` (24).
#[repr(C)]
#[derive(Clone, Copy)]
pub struct ReplyNumbers {
    pub kind: u8,
    pub reason: u8,
    pub rule: u8,
    pub slot: u8,
    pub count: u32,
    pub room: u32,
    pub lots: u64,
    pub pc: u64,
    pub fee: u64,
    pub rested: u64,
    pub coin: u64,
    pub referrer: u64,
    pub amount: u64,
    pub balance: u64,
    pub clock: i64,
    pub latest: i64,
    pub order: Wide,
    pub held: Wide,
    pub pending: Wide,
    pub address: [u8; 32],
}
