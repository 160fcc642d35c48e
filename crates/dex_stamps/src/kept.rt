//! A value that only clauses read, for threads.
ghost use Rattle.std.specs.Prelude.{◌≡◌};
ghost use Rattle.std.specs.Borrow.{ftrue};

use std::marker::{Model, PhantomData};

/// A value as it was at some time. It has no bytes, and may go to another thread or be shared where the value may go to
/// one: std's `Snapshot` is the same, but a struct that has one among many fields is not found to be one for threads.
#[derive(Drop)]
pub struct Kept<T> {
    of: PhantomData<T>,
    pub ghost value: { T },
}

impl<T> Model for Kept<T> {
    ghost also_owns = { λ _. ftrue };
}

// It owns nothing.
unsafe impl<T: Send> Send for Kept<T> {}

unsafe impl<T: Send> Sync for Kept<T> {}

impl<T> Kept<T> {
    /// The value as it is now.
    pub fn of(value: &T) -> Kept<T>
        ensures { result.value ≡ value.now }
    {
        let _ = value;
        Kept { of: PhantomData }
    }

    /// One more of this value.
    pub fn same(&self) -> Kept<T>
        ensures { result.value ≡ self.now.value }
    {
        let _ = self;
        Kept { of: PhantomData }
    }
}
