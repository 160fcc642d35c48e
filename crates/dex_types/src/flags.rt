ghost use Rattle.std.specs.Prelude.{⊤, [], ◌∷◌, codes, ◌≡◌};
ghost use Rattle.dex_types.specs.EventFlags.{is_kind, is_fill, is_out};

use bitflags::{Flag, Flags, bitflag_items};

/// The word of flags of an account (Serum DEX v3, `AccountFlag`). The constants whose names end in `_ACCOUNT` are whole
/// words, as each account has one; the others are single bits, of which Disabled and Closed are this project's own.
#[derive(Clone, Copy, Debug, PartialEq, Eq, Hash)]
pub struct AccountFlags(pub u64);

bitflag_items! {
    impl AccountFlags: u64 {
        const INITIALIZED = 1;
        const MARKET = 2;
        const OPEN_ORDERS = 4;
        const REQUEST_QUEUE = 8;
        const EVENT_QUEUE = 16;
        const BIDS = 32;
        const ASKS = 64;
        const DISABLED = 128;
        const CLOSED = 256;
    }
}

impl Flags for AccountFlags {
    type Bits = u64;

    ghost exact = { ⊤ };

    ghost table = { (codes "INITIALIZED", 1) ∷ (codes "MARKET", 2) ∷ (codes "OPEN_ORDERS", 4) ∷ (codes "REQUEST_QUEUE", 8)
        ∷ (codes "EVENT_QUEUE", 16) ∷ (codes "BIDS", 32) ∷ (codes "ASKS", 64) ∷ (codes "DISABLED", 128)
        ∷ (codes "CLOSED", 256) ∷ [] };

    ghost set_of = { λ f. f.0 };

    fn flags<'a>() -> &'a [Flag<AccountFlags>] {
        AccountFlags::FLAGS
    }

    fn bits(&self) -> u64 {
        self.0
    }

    fn from_bits_retain(bits: u64) -> AccountFlags {
        AccountFlags(bits)
    }
}

impl AccountFlags {
    /// The flags of a market that takes orders.
    pub const MARKET_ACCOUNT: AccountFlags = AccountFlags(
        AccountFlags::INITIALIZED.0 | AccountFlags::MARKET.0,
    );

    /// The flags of a market that takes no new accounts and orders any more.
    pub const DISABLED_MARKET_ACCOUNT: AccountFlags = AccountFlags(
        AccountFlags::MARKET_ACCOUNT.0 | AccountFlags::DISABLED.0,
    );

    /// The flags of an open-orders account that is open.
    pub const OPEN_ORDERS_ACCOUNT: AccountFlags = AccountFlags(
        AccountFlags::INITIALIZED.0 | AccountFlags::OPEN_ORDERS.0,
    );

    /// The flags of an open-orders account that was closed.
    pub const CLOSED_ACCOUNT: AccountFlags = AccountFlags::CLOSED;

    /// The flags of a market's request queue.
    pub const REQUEST_QUEUE_ACCOUNT: AccountFlags = AccountFlags(
        AccountFlags::INITIALIZED.0 | AccountFlags::REQUEST_QUEUE.0,
    );

    /// The flags of a market's event queue.
    pub const EVENT_QUEUE_ACCOUNT: AccountFlags = AccountFlags(
        AccountFlags::INITIALIZED.0 | AccountFlags::EVENT_QUEUE.0,
    );

    /// The flags of a market's bids.
    pub const BIDS_ACCOUNT: AccountFlags = AccountFlags(
        AccountFlags::INITIALIZED.0 | AccountFlags::BIDS.0,
    );

    /// The flags of a market's asks.
    pub const ASKS_ACCOUNT: AccountFlags = AccountFlags(
        AccountFlags::INITIALIZED.0 | AccountFlags::ASKS.0,
    );
}

// The whole words, as the accounts have them.
const _: () = prove!(AccountFlags::MARKET_ACCOUNT.0 == 3);

const _: () = prove!(AccountFlags::DISABLED_MARKET_ACCOUNT.0 == 131);

const _: () = prove!(AccountFlags::OPEN_ORDERS_ACCOUNT.0 == 5);

const _: () = prove!(AccountFlags::CLOSED_ACCOUNT.0 == 256);

const _: () = prove!(AccountFlags::REQUEST_QUEUE_ACCOUNT.0 == 9);

const _: () = prove!(AccountFlags::EVENT_QUEUE_ACCOUNT.0 == 17);

const _: () = prove!(AccountFlags::BIDS_ACCOUNT.0 == 33);

const _: () = prove!(AccountFlags::ASKS_ACCOUNT.0 == 65);

/// The byte of flags of an event (Serum DEX v3, `EventFlag`). The constants whose names tell an event are whole bytes,
/// and only these eight stand in a market's event queue; the others are single bits.
#[derive(Clone, Copy, Debug, PartialEq, Eq, Hash)]
pub struct EventFlags(pub u8);

bitflag_items! {
    impl EventFlags: u8 {
        const FILL = 1;
        const OUT = 2;
        const BID = 4;
        const MAKER = 8;
        const RELEASE_FUNDS = 16;
    }
}

impl Flags for EventFlags {
    type Bits = u8;

    ghost exact = { ⊤ };

    ghost table = { (codes "FILL", 1) ∷ (codes "OUT", 2) ∷ (codes "BID", 4) ∷ (codes "MAKER", 8) ∷ (codes "RELEASE_FUNDS", 16) ∷ [] };

    ghost set_of = { λ f. f.0 };

    fn flags<'a>() -> &'a [Flag<EventFlags>] {
        EventFlags::FLAGS
    }

    fn bits(&self) -> u8 {
        self.0
    }

    fn from_bits_retain(bits: u8) -> EventFlags {
        EventFlags(bits)
    }
}

impl EventFlags {
    /// A fill of a resting ask.
    pub const MAKER_FILL_OF_ASK: EventFlags = EventFlags(EventFlags::FILL.0 | EventFlags::MAKER.0);

    /// A fill of a resting bid.
    pub const MAKER_FILL_OF_BID: EventFlags = EventFlags(
        EventFlags::FILL.0 | EventFlags::MAKER.0 | EventFlags::BID.0,
    );

    /// All fills of a new ask in one.
    pub const TAKER_FILL_OF_ASK: EventFlags = EventFlags::FILL;

    /// All fills of a new bid in one.
    pub const TAKER_FILL_OF_BID: EventFlags = EventFlags(EventFlags::FILL.0 | EventFlags::BID.0);

    /// An ask is gone, with nothing to release.
    pub const OUT_OF_ASK: EventFlags = EventFlags::OUT;

    /// A bid is gone, with nothing to release.
    pub const OUT_OF_BID: EventFlags = EventFlags(EventFlags::OUT.0 | EventFlags::BID.0);

    /// An ask is gone or smaller, and releases what that unlocks.
    pub const RELEASING_OUT_OF_ASK: EventFlags = EventFlags(
        EventFlags::OUT.0 | EventFlags::RELEASE_FUNDS.0,
    );

    /// A bid is gone or smaller, and releases what that unlocks.
    pub const RELEASING_OUT_OF_BID: EventFlags = EventFlags(
        EventFlags::OUT.0 | EventFlags::RELEASE_FUNDS.0 | EventFlags::BID.0,
    );

    /// Whether these are the flags of one of the eight kinds of events.
    pub fn is_kind(self) -> bool
        ensures { result ≡ is_kind self.0 }
    {
        self.is_fill() || self.is_out()
    }

    fn is_fill(self) -> bool
        ensures { result ≡ is_fill self.0 }
    {
        self == EventFlags::MAKER_FILL_OF_ASK
            || self == EventFlags::MAKER_FILL_OF_BID
            || self == EventFlags::TAKER_FILL_OF_ASK
            || self == EventFlags::TAKER_FILL_OF_BID
    }

    fn is_out(self) -> bool
        ensures { result ≡ is_out self.0 }
    {
        self == EventFlags::OUT_OF_ASK
            || self == EventFlags::OUT_OF_BID
            || self == EventFlags::RELEASING_OUT_OF_ASK
            || self == EventFlags::RELEASING_OUT_OF_BID
    }
}
