//! One event of the ring, in its own 88 bytes.

ghost use Rattle.std.specs.Prelude.{◌≡◌, length};
ghost use Rattle.dex_ring.specs.EventBytes.{are_event_flags, event_bytes, event_of};

use bitflags::Flags;
use dex_fields::event::{
    CLIENT_ORDER_ID, FEE_TIER, FLAGS, NATIVE_FEE_OR_REBATE, NATIVE_QTY_PAID, NATIVE_QTY_RELEASED,
    ORDER_ID, OWNER, OWNER_SLOT, PADDING,
};
use dex_fields::{
    Field, get_addr, get_u8, get_u64, get_u128, put_addr, put_u8, put_u32, put_u64, put_u128,
};
use dex_types::{Address, Event, EventFlags};

/// The first four bytes of the padding.
const PADDING_FRONT: Field = Field { at: 3, len: 4 };

/// The last byte of the padding.
const PADDING_END: Field = Field { at: 7, len: 1 };

const _: () = prove!(PADDING_FRONT.at == PADDING.at);

/// Whether the flags are those of one of the eight kinds of events.
pub fn are_event_flags(flags: u8) -> bool
    ensures { result ≡ are_event_flags flags }
{
    EventFlags::from_bits_retain(flags).is_kind()
}

/// The event that the bytes say.
#[tactic(auto, unfolding(crate::specs::EventBytes::event_of))]
pub fn get_event(bytes: &[u8]) -> Event
    requires { length bytes.now ≡ 88 }
    ensures { result ≡ event_of bytes.now }
{
    Event {
        flags: get_u8(bytes, FLAGS),
        slot: get_u8(bytes, OWNER_SLOT),
        tier: get_u8(bytes, FEE_TIER),
        released: get_u64(bytes, NATIVE_QTY_RELEASED),
        paid: get_u64(bytes, NATIVE_QTY_PAID),
        fee_or_rebate: get_u64(bytes, NATIVE_FEE_OR_REBATE),
        id: get_u128(bytes, ORDER_ID),
        owner: Address(get_addr(bytes, OWNER)),
        client: get_u64(bytes, CLIENT_ORDER_ID),
    }
}

/// Writes the event, with zeros as its padding.
pub fn put_event(bytes: &mut [u8], event: &Event)
    requires { length bytes.old ≡ 88 }
    ensures written { bytes.new ≡ event_bytes event.now }
    ensures read { event_of bytes.new ≡ event.now }
{
    put_u8(bytes, FLAGS, event.flags);
    put_u8(bytes, OWNER_SLOT, event.slot);
    put_u8(bytes, FEE_TIER, event.tier);
    put_u32(bytes, PADDING_FRONT, 0);
    put_u8(bytes, PADDING_END, 0);
    put_u64(bytes, NATIVE_QTY_RELEASED, event.released);
    put_u64(bytes, NATIVE_QTY_PAID, event.paid);
    put_u64(bytes, NATIVE_FEE_OR_REBATE, event.fee_or_rebate);
    put_u128(bytes, ORDER_ID, event.id);
    put_addr(bytes, OWNER, event.owner.0);
    put_u64(bytes, CLIENT_ORDER_ID, event.client);
}
