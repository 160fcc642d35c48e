//! A number that only clauses read.
ghost use Rattle.std.specs.Prelude.{◌≡◌, ◌+◌, ℕ, max};
ghost use Rattle.std.specs.Borrow.{ftrue};

use std::marker::Model;

/// A number without bound. It has no bytes, and what is done with it does nothing at run time.
#[derive(Drop)]
pub struct Stamp {
    pub ghost number: { ℕ },
}

impl Model for Stamp {
    ghost also_owns = { λ _. ftrue };
}

// It owns nothing.
unsafe impl Send for Stamp {}

unsafe impl Sync for Stamp {}

impl Stamp {
    /// The number 0.
    pub fn first() -> Stamp
        ensures { result.number ≡ 0 }
    {
        Stamp {}
    }

    /// The number after this one.
    pub fn next(&self) -> Stamp
        ensures { result.number ≡ self.now.number + 1 }
    {
        Stamp {}
    }

    /// The greater of this number and another.
    pub fn later(&self, other: &Stamp) -> Stamp
        ensures { result.number ≡ max self.now.number other.now.number }
    {
        Stamp {}
    }
}
