//! Which calls are to fail, by their number.

ghost use Rattle.std.specs.Prelude.{◌≡◌, ◌↔◌, List, ℕ, IsTrue, Contains};
ghost use Rattle.dex_io.specs.Faults.{next_count};

/// The calls made so far, and the numbers of the calls that fail. The first call has number 0. From number
/// 2^64 - 1 on each call has that number.
#[derive(Drop)]
pub(crate) struct Schedule {
    pub(crate) calls: u64,
    pub(crate) fails: Vec<u64>,
}

impl Schedule {
    /// Counts a call, and says whether it is to fail.
    pub(crate) fn next_fails(&mut self) -> bool
        ensures listed { IsTrue result ↔ Contains self.old.fails.items self.old.calls }
        ensures calls { self.new.calls ≡ next_count self.old.calls }
        ensures fails { self.new.fails ≡ self.old.fails }
    {
        let is_listed = self.fails.contains(&self.calls);
        self.calls = self.calls.saturating_add(1);
        is_listed
    }
}
