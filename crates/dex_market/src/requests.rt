//! The request queue, of which the program uses one word alone: the next sequence number.

ghost use Rattle.std.specs.Prelude.{◌≡◌, ◌+◌, ◌-◌, ◌^◌, ◌<◌, IfOk, IsErr, ◌↔◌};
ghost use Rattle.dex_fields.specs.Bytes.{with_number};
ghost use Rattle.dex_market.specs.RequestQueue.{IsRequestQueue, next_sequence};

use dex_fields::request_queue::NEXT_SEQ_NUM;
use dex_fields::{get_u64, put_u64};
use thiserror::Error;

/// Every sequence number is used.
#[derive(Clone, Copy, Debug, PartialEq, Eq, Error)]
#[error("every sequence number is used")]
pub struct SequenceExhausted;

/// A request queue, for reading.
#[derive(Clone, Copy, Debug)]
pub struct RequestRef<'a> {
    pub bytes: &'a [u8],
}

/// A request queue, for reading and for writing in place.
#[derive(Debug, Drop)]
pub struct RequestView<'a> {
    pub bytes: &'a mut [u8],
}

impl RequestRef<'_> {
    /// The sequence number of the next order, or that every number is used.
    pub fn next_seq(&self) -> Result<u64, SequenceExhausted>
        requires { IsRequestQueue self.now.bytes.now }
        ensures found { IfOk result (λ number. number ≡ next_sequence self.now.bytes.now) }
        ensures exhausted { IsErr result ↔ (next_sequence self.now.bytes.now ≡ 2 ^ 64 - 1) }
    {
        match get_u64(self.bytes, NEXT_SEQ_NUM) {
            u64::MAX => Err(SequenceExhausted),
            number => Ok(number),
        }
    }
}

impl RequestView<'_> {
    /// The sequence number of the next order, or that every number is used.
    pub fn next_seq(&self) -> Result<u64, SequenceExhausted>
        requires { IsRequestQueue self.now.bytes.now }
        ensures found { IfOk result (λ number. number ≡ next_sequence self.now.bytes.now) }
        ensures exhausted { IsErr result ↔ (next_sequence self.now.bytes.now ≡ 2 ^ 64 - 1) }
    {
        RequestRef { bytes: self.bytes }.next_seq()
    }

    /// Uses the next sequence number.
    pub fn advance(&mut self)
        requires accepted { IsRequestQueue self.old.bytes.now }
        requires left { next_sequence self.old.bytes.now < 2 ^ 64 - 1 }
        ensures place { self.new.bytes.ghost_name ≡ self.old.bytes.ghost_name }
        ensures bytes { self.new.bytes.now ≡ with_number self.old.bytes.now NEXT_SEQ_NUM
            (next_sequence self.old.bytes.now + 1) }
        ensures raised { next_sequence self.new.bytes.now ≡ next_sequence self.old.bytes.now + 1 }
        ensures accepted { IsRequestQueue self.new.bytes.now }
    {
        let bytes = &mut *self.bytes;
        let number = get_u64(bytes, NEXT_SEQ_NUM);
        put_u64(bytes, NEXT_SEQ_NUM, number + 1);
    }
}
