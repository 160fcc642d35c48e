//! What was heard, line by line.

ghost use Rattle.std.specs.Prelude.{◌≡◌, ◌<◌, ◌≤◌, ◌+◌, ◌++◌, [], IfSome, MatchOption, OnOk, drop, length, take};
ghost use Rattle.dex_desk.specs.Talks.{HasNoEnd, IsCut};

use memchr::memchr;
use std::alloc::{AllocError, Global};
use std::marker::Model;

/// Bytes that were heard and of which no line was taken yet. A contract sees these bytes.
#[derive(Drop)]
pub struct Inbox {
    bytes: Vec<u8>,
    at: usize,
    /// So many of them were looked at, and none ends a line.
    seen: usize,
}

impl Model for Inbox {
    ghost use Rattle.std.specs.Prelude.{◌≤◌, ◌+◌, List, ℕ, drop, length, take};
    ghost use Rattle.dex_desk.specs.Talks.{HasNoEnd};

    ghost Value = { List ℕ };

    ghost view = { λ s. drop s.at s.bytes.items };

    ghost invariant = { λ s. (s.at + s.seen ≤ length s.bytes.items)
        × HasNoEnd (take s.seen (drop s.at s.bytes.items)) };
}

impl Inbox {
    /// Nothing heard yet.
    pub fn new(alloc: Global) -> Inbox
        ensures { result ≡ [] }
    {
        Inbox {
            bytes: Vec::new(alloc),
            at: 0,
            seen: 0,
        }
    }

    /// How many bytes there are.
    pub fn len(&self) -> usize
        ensures { result ≡ length self.now }
    {
        self.bytes.len() - self.at
    }

    /// The bytes.
    pub fn bytes(&self) -> &[u8]
        ensures { result.now ≡ self.now }
    {
        &self.bytes[self.at..]
    }

    /// Where the first line ends, if it is whole.
    pub fn line_end(&self) -> Option<usize>
        ensures cut { MatchOption result (HasNoEnd self.now)
            (λ n. IsCut self.now (take n self.now) (drop (n + 1) self.now)) }
        ensures within { IfSome result (λ n. n < length self.now) }
    {
        end_behind(self.bytes(), self.seen)
    }

    /// Puts bytes behind the others. Where memory is wanting, all stays.
    pub fn add(&mut self, more: &[u8]) -> Result<(), AllocError>
        ensures { OnOk result (self.new ≡ self.old ++ more.now) }
    {
        self.bytes.extend_from_slice(more)
    }

    /// Lets so many bytes at the front go.
    pub fn pass(&mut self, count: usize)
        requires { count ≤ length self.old }
        ensures { self.new ≡ drop count self.old }
    {
        self.at += count;
        self.seen = 0;
    }

    /// Where no line is whole: gives back the room of bytes that were passed, and looks at the others no more.
    pub fn close_up(&mut self)
        requires { HasNoEnd self.old }
        ensures { self.new ≡ self.old }
    {
        let left = self.len();
        if 0 < self.at {
            self.bytes.copy_within(self.at.., 0);
            self.bytes.truncate(left);
            self.at = 0;
        }
        self.seen = left;
    }
}

/// Where the first line of bytes ends, if it is whole. None of the first so many ends it.
fn end_behind(bytes: &[u8], seen: usize) -> Option<usize>
    requires within { seen ≤ length bytes.now }
    requires known { HasNoEnd (take seen bytes.now) }
    ensures cut { MatchOption result (HasNoEnd bytes.now)
        (λ n. IsCut bytes.now (take n bytes.now) (drop (n + 1) bytes.now)) }
    ensures within { IfSome result (λ n. n < length bytes.now) }
{
    match memchr(b'\n', bytes.split_at(seen).1) {
        Some(more) => Some(seen + more),
        None => None,
    }
}
